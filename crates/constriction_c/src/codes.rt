//! The codes that the C functions return.
//!
//! A C function passes its arguments to a call of another crate, and returns the code of the call's result. The
//! contract of the C function contains each clause of that call's contract. `answer_by_code` converts the returned code
//! to the result that these clauses describe.
//!
//! `include/constriction.h` itself defines `constriction_result_text`, which returns the text of a code. An exported
//! function of this crate can't return a pointer.

ghost use Rattle.std.specs.Prelude.{◌≡◌, ◌≤◌, ℕ, Err};
ghost use Rattle.constriction_inputs.specs.declared.refusal.Refusal.TheVariants.{NoSpace};
ghost use Rattle.constriction_c.specs.Codes.{answer_by_code, needed_by};

use constriction_inputs::refusal::Refusal;

/// Returns the code of `answer`, the result of a call: 0 for success, or the code of the error.
///
/// The errors `ImpossibleSymbol`, `WrongWeights`, `WrongInterval`, `WrongLength`, `NoSpace`, `NoMemory`, `InvalidData`
/// and `OutOfData` have the codes 1 to 8, in this order. For `NoSpace(count)` this function also sets `needed` to
/// `count`, the number of words that the buffer has to hold. For any other result it leaves `needed` unchanged.
#[inline]
pub fn code_of(answer: Result<(), Refusal>, needed: &mut usize) -> u32
    ensures code { answer_by_code result needed.new ≡ answer }
    ensures needed { needed.new ≡ needed_by answer needed.old }
    ensures within { result ≤ 8 }
{
    match answer {
        Ok(()) => 0,
        Err(Refusal::ImpossibleSymbol) => 1,
        Err(Refusal::WrongWeights) => 2,
        Err(Refusal::WrongInterval) => 3,
        Err(Refusal::WrongLength) => 4,
        Err(Refusal::NoSpace(count)) => {
            *needed = count;
            5
        }
        Err(Refusal::NoMemory) => 6,
        Err(Refusal::InvalidData) => 7,
        Err(Refusal::OutOfData) => 8,
    }
}

/// Returns the code of `answer`, as [`code_of`] does. The caller proves that `answer` isn't `NoSpace`.
#[inline]
pub fn code_without_space(answer: Result<(), Refusal>) -> u32
    requires { (needed : ℕ) → answer ≡ Err (NoSpace needed) → ⊥ }
    ensures { answer_by_code result 0 ≡ answer }
{
    let mut needed = 0;
    code_of(answer, &mut needed)
}
