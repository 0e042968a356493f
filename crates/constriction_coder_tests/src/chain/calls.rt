//! Tests of the public calls that the worked examples of `rows` don't make.

use super::coders::fine;
use std::test::Fail;

/// Checks that clones, coders put together from their parts, and exports have the expected heads and words.
///
/// A refused export answers `none`.
#[test]
fn calls_of_a_coder(rt: HostRuntime) -> Result<(), Fail> {
    fine(
        rt.alloc(),
        "import 10 20 30 whole unfinished full
         take 1 compressed 10 remainders 36
         clone again heads 1 28
         take 0 compressed remainders 36 202 heads 1 1 exhausted
         export-binary
         put 0 1 export-binary!none export 10 20 30",
    )
}

/// Checks list calls: encodes in both orders, decodes with each iterator, and stops at the first failing symbol.
///
/// The lists have one table for all symbols, pairs of a symbol and a table, or items that may be errors.
#[test]
fn calls_of_lists(rt: HostRuntime) -> Result<(), Fail> {
    fine(
        rt.alloc(),
        "import 5 77 3 130 60 10 30
         take 0 1 1 0 1 0 prefix suffix 234 28 98 13 37 1 1
         pairs 0 1 items 0 1 1 list 0
         prefix 5 77 3 130 60 10 suffix 30 1
         by-one 3 0 by-models 1 1 by-one 2 0 1 by-items bad7 0 next!ended
         prefix suffix 234 28 98 13 37 1 1
         pairs-back 1 0 items-back 1 0 back 0 1 back
         prefix 5 77 3 130 60 10 suffix 30 1
         import 10 20 30
         pairs!unknown 0 5 take 0 items!bad7 0 bad7 0 take 0 list!ended 0 1 0 take 0
         pairs-back!unknown 5 0 take 0 items-back!bad7 bad7 0 take 0 back!ended 0 1 0
         prefix 10 20 14 suffix 1 1",
    )
}
