//! Tests of worked examples: scripts that check exact words and intervals.

use super::coders::{INVERTING, decode, said, small, small_of, tall, tall_of, wide, wide_of};
use std::test::Fail;

#[test]
fn range_one_symbol(rt: HostRuntime) -> Result<(), Fail> {
    let halves: &[u32] = &[8388608, 8388608];
    wide(rt.alloc(), &[(halves, "put 1 export 2147483648")])?;
    wide_of(
        rt.alloc(),
        &[2147483648],
        &[(
            halves,
            "take 1 exhausted
             stands 9223372036846387200 9223372036846387200 9223372036854775808 0",
        )],
    )
}

/// Checks that the encoder holds one word back after symbol 1.
#[test]
fn range_inverted(rt: HostRuntime) -> Result<(), Fail> {
    small(
        rt.alloc(),
        &[(
            INVERTING,
            "put 1 at 1 33024 65280 held 1 126 written sizes 2 16
             shown 126 129 written at 1 33024 65280 held 1 126
             lent 126 129 written at 1 33024 65280 held 1 126
             sealed 126 129
             export 126 129",
        )],
    )
}

/// Checks a carry, which adds 1 to the pending word. Afterwards the interval ends exactly at `2^16`.
#[test]
fn range_carry(rt: HostRuntime) -> Result<(), Fail> {
    small(
        rt.alloc(),
        &[(
            INVERTING,
            "put 1 3 written 127 at 2 256 65280 held 1 127 sizes 3 24
             sealed 127 127 1 export 127 127 1",
        )],
    )
}

#[test]
fn range_seek_before_carry(rt: HostRuntime) -> Result<(), Fail> {
    small_of(
        rt.alloc(),
        &[127, 127, 1],
        &[(
            INVERTING,
            "seek 1 33024 65280 stands 33024 65280 32513 0
             take 3 at 256 65280 exhausted
             seek 0 0 65535 take 1 3",
        )],
    )
}

/// Checks that the encoder writes the pending word unchanged if there is no carry.
#[test]
fn range_no_carry(rt: HostRuntime) -> Result<(), Fail> {
    small(
        rt.alloc(),
        &[(
            INVERTING,
            "put 1 0 written 126 at 1 33024 32385 held sealed 126 129 export 126 129",
        )],
    )?;
    small_of(
        rt.alloc(),
        &[126, 129],
        &[(INVERTING, "take 1 0 exhausted stands 33024 32385 33024 0")],
    )
}

/// Checks that a cleared encoder holds no words back.
#[test]
fn range_clear(rt: HostRuntime) -> Result<(), Fail> {
    small(
        rt.alloc(),
        &[(
            INVERTING,
            "put 1 held 1 126 clear empty at 0 0 65535 held
             put 0 at 0 0 32385 held sealed 0 export 0",
        )],
    )
}

/// Checks a seal that needs a zero word, because the interval doesn't contain all values of any top word.
///
/// With the zero word, the symbols are decoded whatever words follow. If 255 replaces it, another symbol is decoded.
#[test]
fn range_zero_word(rt: HostRuntime) -> Result<(), Fail> {
    let first: &[u8] = &[129, 127];
    let second: &[u8] = &[1, 2, 253];
    small(
        rt.alloc(),
        &[
            (first, "put 0"),
            (second, "put 1 at 0 128 256 held sizes 2 16 export 1 0"),
        ],
    )?;
    small_of(
        rt.alloc(),
        &[1, 0],
        &[
            (first, "take 0 at 0 32895 exhausted"),
            (second, "take 1 exhausted stands 128 256 256 0"),
        ],
    )?;
    small_of(
        rt.alloc(),
        &[1, 0, 255],
        &[
            (first, "take 0 unfinished"),
            (second, "take 1 unfinished stands 128 256 256 1"),
        ],
    )?;
    small_of(
        rt.alloc(),
        &[1, 255],
        &[
            (first, "take 0 unfinished"),
            (second, "take 2 exhausted stands 384 32384 511 0"),
        ],
    )
}

#[test]
fn range_invalid_and_empty(rt: HostRuntime) -> Result<(), Fail> {
    let halves: &[u32] = &[8388608, 8388608];
    wide_of(
        rt.alloc(),
        &[4294967295, 4294967295],
        &[(
            halves,
            "next!invalid next!invalid
             stands 0 18446744073709551615 18446744073709551615 0",
        )],
    )?;
    wide(rt.alloc(), &[(halves, "export")])?;
    wide_of(
        rt.alloc(),
        &[],
        &[(halves, "exhausted stands 0 18446744073709551615 0 0")],
    )?;
    small(
        rt.alloc(),
        &[(INVERTING, "parts!short 0 255 0 0 parts 0 256 0 0")],
    )
}

/// Checks a carry through the second pending word, in which all bits are 1.
#[test]
fn range_two_held(rt: HostRuntime) -> Result<(), Fail> {
    small(
        rt.alloc(),
        &[(
            INVERTING,
            "put 1 1 at 2 33024 65280 held 2 126 written sealed 126 255 129
             put 3 at 3 256 65280 held 1 127 written 127 0 sizes 4 32
             sealed 127 0 127 1 export 127 0 127 1",
        )],
    )
}

#[test]
fn range_parts_fit(rt: HostRuntime) -> Result<(), Fail> {
    small(
        rt.alloc(),
        &[(
            INVERTING,
            "parts 0 256 0 0
             parts!unfit 65280 256 0 0
             parts 65280 256 1 5
             parts!unfit 65280 256 1 255
             parts!unfit 1 65535 0 0
             parts!unfit 1 65535 1 5
             parts!unfit 1 65535 1 255",
        )],
    )
}

#[test]
fn range_point_in_range(rt: HostRuntime) -> Result<(), Fail> {
    small_of(
        rt.alloc(),
        &[],
        &[(INVERTING, "parts 0 256 255 parts!none 0 256 256 at 0 256")],
    )
}

/// Checks that quantiles of at least `2^P` are invalid: 299 at 8 bits of precision, and 16 at 4 bits.
#[test]
fn range_quantile_too_large(rt: HostRuntime) -> Result<(), Fail> {
    small_of(
        rt.alloc(),
        &[],
        &[(INVERTING, "parts 0 300 299 next!invalid stands 0 300 299 0")],
    )?;
    said(decode::<u8, u16, u8, 4>(
        rt.alloc(),
        &[],
        &[(&[5, 11], "parts 0 300 299 next!invalid stands 0 300 299 0")],
    ))
}

#[test]
fn range_decoder_through_guard(rt: HostRuntime) -> Result<(), Fail> {
    small(
        rt.alloc(),
        &[(INVERTING, "put 1 3 ended 1 3 written 127 at 2 256 65280")],
    )
}

#[test]
fn range_distance_raw_parts(rt: HostRuntime) -> Result<(), Fail> {
    small_of(
        rt.alloc(),
        &[127, 127, 1],
        &[(INVERTING, "take 1 stands 33024 65280 32513 0")],
    )
}

/// Checks that a decoder reads missing words as zeros.
#[test]
fn range_cut_short(rt: HostRuntime) -> Result<(), Fail> {
    small_of(rt.alloc(), &[127, 127], &[(INVERTING, "take 1 2")])?;
    small_of(rt.alloc(), &[127], &[(INVERTING, "take 1 1")])?;
    small_of(rt.alloc(), &[], &[(INVERTING, "take 0 0")])
}

/// Checks that a seek past the end is refused, and that a decode after a seek to another interval may be invalid.
#[test]
fn range_seek_refused(rt: HostRuntime) -> Result<(), Fail> {
    small_of(
        rt.alloc(),
        &[127, 127, 1],
        &[(
            INVERTING,
            "take 1 seek!none 4 0 300 stands 33024 65280 32513 0
             seek 1 0 256 next!invalid stands 0 256 32513 0",
        )],
    )
}

#[test]
fn range_wide_state(rt: HostRuntime) -> Result<(), Fail> {
    tall(
        rt.alloc(),
        &[(
            INVERTING,
            "parts 1 16777216 0 0 export 1 0
             parts 1 16777216 0 0 delimited 1 0 0 0",
        )],
    )
}

/// Checks that four words of ones or of zeros after the sealed words don't change the symbols.
#[test]
fn range_whatever_follows(rt: HostRuntime) -> Result<(), Fail> {
    let halves: &[u32] = &[8388608, 8388608];
    let one = [(halves, "take 1")];
    let carry = [(INVERTING, "take 1 3")];
    let first: &[u8] = &[129, 127];
    let second: &[u8] = &[1, 2, 253];
    let zero = [(first, "take 0"), (second, "take 1")];
    let all = u32::MAX;
    wide_of(rt.alloc(), &[2147483648, all, all, all, all], &one)?;
    wide_of(rt.alloc(), &[2147483648, 0, 0, 0, 0], &one)?;
    small_of(rt.alloc(), &[127, 127, 1, 255, 255, 255, 255], &carry)?;
    small_of(rt.alloc(), &[127, 127, 1, 0, 0, 0, 0], &carry)?;
    small_of(rt.alloc(), &[1, 0, 255, 255, 255, 255], &zero)?;
    small_of(rt.alloc(), &[1, 0, 0, 0, 0, 0], &zero)
}

#[test]
fn seal_two_zero_words(rt: HostRuntime) -> Result<(), Fail> {
    let first: &[u8] = &[27, 229];
    let second: &[u8] = &[19, 237];
    let third: &[u8] = &[128, 128];
    let last = "put 1 at 0 16809856 16809856 sealed 2 0 delimited 2 0 0";
    tall(
        rt.alloc(),
        &[(first, "put 0"), (second, "put 0"), (third, last)],
    )?;
    tall_of(
        rt.alloc(),
        &[2, 0, 255, 255],
        &[(first, "take 0"), (second, "take 1")],
    )?;
    tall_of(
        rt.alloc(),
        &[2, 0, 0, 255],
        &[(first, "take 0"), (second, "take 0"), (third, "take 1")],
    )
}

#[test]
fn seal_same(rt: HostRuntime) -> Result<(), Fail> {
    let halves: &[u8] = &[128, 128];
    tall(
        rt.alloc(),
        &[(halves, "put 1 export 128 put 1 delimited 128")],
    )
}

#[test]
fn seal_one_zero_word(rt: HostRuntime) -> Result<(), Fail> {
    let first: &[u8] = &[129, 127];
    let second: &[u8] = &[1, 2, 253];
    tall(
        rt.alloc(),
        &[(first, "put 0"), (second, "put 1 sealed 1 0 delimited 1 0")],
    )
}
