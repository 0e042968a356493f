//! Tests of worked examples: scripts that check exact heads and words, which are computed by hand.

use super::coders::{Small, small, small_over, wide};
use constriction_stream::coder::Code;
use std::num::NonZero;
use std::test::Fail;

/// The weights of the table for coders of 32-bit words.
const WIDE: [u32; 3] = [3, 2, 16777211];

#[test]
fn ans_word_moves_out(rt: HostRuntime) -> Result<(), Fail> {
    small(
        rt.alloc(),
        &[255, 1],
        "put 1 head 255
         put 1 head 65535 words
         put 1 head 65535 words 255
         given 255 255 255
         export 255 255 255
         import 255 255 255
         take 1 1 1 empty",
    )
}

/// Checks that the interval of symbol 1, encoded without a model, leads to the heads of `ans_word_moves_out`.
#[test]
fn ans_word_moves_out_by_intervals(rt: HostRuntime) -> Result<(), Fail> {
    let one = NonZero::<u8>::new(1).expect(&rt, "1 is above 0");
    let mut coder = Small::new(rt.alloc());
    for head in [255u16, 65535, 65535] {
        coder.encode_interval::<u8, 8>(255, one, None)?;
        assert!(rt; coder.state() == head);
    }
    assert!(rt; coder.bulk().as_slice() == [255u8].as_slice());
    Ok(())
}

#[test]
fn ans_left_zero(rt: HostRuntime) -> Result<(), Fail> {
    small(
        rt.alloc(),
        &[255, 1],
        "put 0 head 0 empty export import take 0 empty",
    )
}

#[test]
fn ans_invalid_state(rt: HostRuntime) -> Result<(), Fail> {
    small(
        rt.alloc(),
        &[255, 1],
        "of 5 9
         take 0 head 1289 words
         put 0 head 1294",
    )
}

#[test]
fn ans_binary_zero_words(rt: HostRuntime) -> Result<(), Fail> {
    wide(
        rt.alloc(),
        &WIDE,
        "export-binary!no-binary
         import-binary 5 0 head 4294967296 words 5
         export-binary 5 0",
    )
}

/// Checks the binary form with a guard and without a guard, and heads that have no binary form.
#[test]
fn ans_binary_forms(rt: HostRuntime) -> Result<(), Fail> {
    wide(
        rt.alloc(),
        &WIDE,
        "shows-binary!no-binary
         import-binary 5 0 shows-binary 5 0 head 4294967296 words 5
         of 3 export-binary!no-binary
         import-binary head 1 words export-binary",
    )
}

#[test]
fn ans_zero_last_word(rt: HostRuntime) -> Result<(), Fail> {
    wide(
        rt.alloc(),
        &WIDE,
        "import!none 7 0
         import head 0 words empty",
    )
}

#[test]
fn ans_sizes(rt: HostRuntime) -> Result<(), Fail> {
    small(
        rt.alloc(),
        &[255, 1],
        "put 1 head 255 put 1 head 65535 put 1 head 65535
         sizes 3 24 23",
    )?;
    wide(rt.alloc(), &WIDE, "import-binary 5 0 sizes 3 96 64")
}

/// Checks that a guard without room for its words is refused, and leaves the cursor at its beginning.
#[test]
fn ans_cursor_full(rt: HostRuntime) -> Result<(), Fail> {
    small_over(
        rt.alloc(),
        &[255, 1],
        &mut [0],
        0,
        "put 1 head 255 put 1 head 65535
         shows!full head 65535 words",
    )
}

/// Checks that a list call encodes the symbols before an unknown symbol.
#[test]
fn list_stops_at_unknown(rt: HostRuntime) -> Result<(), Fail> {
    small(rt.alloc(), &[255, 1], "pairs!unknown 1 5 1 head 255 words")
}

/// Checks that a list call encodes the symbols before an error.
#[test]
fn list_stops_at_bad_model(rt: HostRuntime) -> Result<(), Fail> {
    small(rt.alloc(), &[255, 1], "items!bad7 1 bad7 1 head 255 words")
}

/// Checks that an error in the place of a table leaves the coder unchanged, and the iterator goes on after it.
#[test]
fn iterator_goes_on(rt: HostRuntime) -> Result<(), Fail> {
    small(
        rt.alloc(),
        &[255, 1],
        "import 255 255 255
         by-items 1 bad7 1
         take 1 empty",
    )
}

/// Checks that symbols that an iterator didn't return stay on the coder.
#[test]
fn iterator_dropped_early(rt: HostRuntime) -> Result<(), Fail> {
    small(
        rt.alloc(),
        &[255, 1],
        "import 255 255 255
         by-one 3 1
         take 1 1 empty",
    )
}
