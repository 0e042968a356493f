//! Tests that make each public call of the stack coder. The expected heads and words are computed from its definition.

use super::coders::small;
use std::test::Fail;

/// Checks making, clearing, taking apart, exporting and importing a coder, and each way to get a decoder.
#[test]
fn calls_of_a_coder(rt: HostRuntime) -> Result<(), Fail> {
    small(
        rt.alloc(),
        &[200, 55, 1],
        "of 1 235 220 29 clear empty
         put 2 head 255
         put 1 head 1259
         put 2 head 1279
         put 0 head 1615
         put 1 head 7644
         no-limit
         parts words 235
         shows 235 220 29 head 7644 words 235
         lent 1 0 2 1 2
         lent-by-trait 1 0 2 1 2
         made 1 0 2 1 2
         at 1 7644
         export 235 220 29
         import 235 220 29
         owned 1 0 2 1 2
         exhausted
         import 235 220 29
         owned-by-trait 1 0 2 1 2
         import-binary 3 1 head 257 words 3 export-binary 3 1",
    )
}

/// Checks list calls of symbols with one model, of pairs and of items, in both orders, and the iterators that decode.
#[test]
fn calls_of_lists(rt: HostRuntime) -> Result<(), Fail> {
    small(
        rt.alloc(),
        &[200, 55, 1],
        "list 1 0 2 head 511 words 0
         pairs 2 1 items 1 2 head 11775 words 0 255 245
         by-models 2 1
         by-one 2 1 2
         take 2 0 1 empty
         back 2 0 1 head 511 words 0
         pairs-back 1 2 items-back 2 1 head 11775 words 0 255 245
         by-items 2 1 1 2 2 0 1 empty",
    )
}

/// Checks that a coder can seek back to a position after further encodes, but not past the end of its words.
#[test]
fn calls_of_positions(rt: HostRuntime) -> Result<(), Fail> {
    small(
        rt.alloc(),
        &[255, 1],
        "put 1 1 1 at 1 65535
         put 0 1 head 511
         seek!none 9 7 head 511
         seek 1 65535 head 65535 words 255",
    )
}
