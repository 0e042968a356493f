//! Functions given by a table of values, and interpolated linearly between the values.
//!
//! A lookup multiplies by the `rate` that `Scale::new` computes, so it never divides by the scale. The tabulated places
//! of the Gaussian are 1/128 of a standard deviation apart. A spacing of 1/32 would cost 2e-6 more bits per symbol.

ghost use Rattle.std.specs.Prelude.{◌≡◌, ◌+◌, ◌-◌, ◌*◌, ◌/◌, ◌<◌, ◌≤◌, length, ℤ, pos, ◌+ℤ◌, ◌-ℤ◌};
ghost use Rattle.constriction_models.specs.Interpolation.{AreValues, value_at, interpolate};
ghost use Rattle.constriction_models.specs.laws.Interpolating.{Fits};

/// Returns the interpolated value at `place`, the distance from the first value in 65536ths of the table's spacing.
///
/// The caller proves that `place` is below `2^27`, which is the distance from the first value to the last.
#[inline(always)]
fn value_at(values: &[u64], place: u64) -> u64
    requires values { AreValues values.now }
    requires within { place < 134217728 }
    ensures { result ≡ value_at values.now place }
{
    let step = (place / 65536) as usize;
    let low = values[step];
    let long = values[step + 1] - low;
    low + long * (place % 65536) / 65536
}

/// Returns how far `place` lies above the first place of a table of width `wide` around `middle`.
///
/// The result and all arguments are in units of `2^-16`.
#[inline(always)]
fn far_above(wide: u64, middle: i64, place: i64) -> i128
    ensures { result ≡ place -ℤ middle +ℤ pos (wide / 2) }
{
    place as i128 - middle as i128 + (wide / 2) as i128
}

/// Interpolates linearly in a table of width `wide` around `middle`, and returns the value at `place`.
///
/// `wide`, `middle` and `place` are in units of `2^-16`. Multiplying a distance by `rate / 2^36` converts it from these
/// units to 65536ths of the table's spacing. The value is 0 below the table, and `2^32` above it.
#[inline(always)]
pub fn interpolate(values: &[u64], wide: u64, rate: u64, middle: i64, place: i64) -> u64
    requires values { AreValues values.now }
    requires fits { Fits wide rate }
    ensures { result ≡ interpolate values.now wide rate middle place }
{
    let far = far_above(wide, middle, place);
    if far < 0 {
        return 0;
    }
    if far >= wide as i128 {
        return 4294967296;
    }
    value_at(values, far as u64 * rate / 68719476736)
}

/// Estimates where a table of a distribution function reaches `below` (in units of `2^-32`), by interpolating `places`.
///
/// `places[k]` is an estimate of where the function reaches `k / 1024`. The result and the entries of `places` are
/// distances from the table's start, in 65536ths of the table's spacing. The result is 0 if, of the two entries around
/// `below`, the second is less than the first or is at least `2^27`.
#[inline(always)]
fn place_of(places: &[u32], below: u64) -> u64
    requires { length places.now ≡ 1025 }
    ensures { result < 134217728 }
{
    let part = (below / 4194304 % 1024) as usize;
    let low = places[part] as u64;
    let high = places[part + 1] as u64;
    if high < low || high >= 134217728 {
        return 0;
    }
    low + (high - low) * (below % 4194304) / 4194304
}

/// Estimates the place at which a distribution reaches `below` (in units of `2^-32`).
///
/// `places[k]` is an estimate of where the table of the distribution function reaches `k / 1024`: the distance from the
/// table's start, in 65536ths of the table's spacing. The table spans the width `wide` around `middle`.
/// `wide`, `middle` and the result are in units of `2^-16`. The result is limited to the range from `-2^51` to `2^51`.
#[inline(always)]
pub fn guess_place(places: &[u32], wide: u64, middle: i64, below: u64) -> i64
    requires count { length places.now ≡ 1025 }
    requires fits { wide ≤ 274877906944 }
{
    let far = place_of(places, below) / 4 * wide / 33554432;
    let from = middle as i128 + far as i128 - (wide / 2) as i128;
    if from > 2251799813685248 {
        2251799813685248
    } else if from < -2251799813685248 {
        -2251799813685248
    } else {
        from as i64
    }
}
