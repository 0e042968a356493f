//! The version of the C functions.

ghost use Rattle.std.specs.Prelude.{◌≡◌};
ghost use Rattle.constriction_c.specs.Codes.{version_number};

/// Returns the version as a number: 10000 times the major version, plus 100 times the minor, plus the patch version.
#[unsafe(no_mangle)]
pub extern "C" fn constriction_version() -> u32
    ensures { result ≡ version_number 0 5 0 }
{
    500
}
