//! Tests of the public calls that the worked examples in `rows.rt` don't make.

use super::coders::{INVERTING, Table, small, small_of};
use super::decoding::Lent;
use super::flagged::{switch_of, tables_of};
use super::parts::{is_interval, is_situation};
use crate::scripts::taking::take_each;
use constriction_base::backends::{BoundedReadWords, Queue};
use constriction_base::weights::WeightTable;
use constriction_queue::{EncoderSituation, RangeCoderState};
use std::test::Fail;

/// Checks an encoder over words, taking an encoder apart, and each way to get a decoder from an encoder.
#[test]
fn calls_of_an_encoder(rt: HostRuntime) -> Result<(), Fail> {
    small(
        rt.alloc(),
        &[(
            INVERTING,
            "empty left 18446744073709551598
             put 1 left 18446744073709551597
             again held 1 126
             put 1 3 0 2 1 1 0 decoded 1 1 3 owned 1 1 3 0 2 1 1 0
             put 1 1 3 0 2 1 1 0 owned-by-trait 1 1 3 0 2 1 1 0
             put 1 1 3 0 2 1 1 0 owned-by-conversion 1 1 3 0 2 1 1 0
             of 9 8 put 1 3 export 9 8 127 127 1
             parts 33024 65280 2 126 9 sealed 9 126 255 129
             put 3 at 4 256 65280 held 1 127 export 9 127 0 127 1",
        )],
    )
}

/// Checks the list calls of symbols with one model, of pairs and of items, and the iterators that decode.
#[test]
fn calls_of_lists(rt: HostRuntime) -> Result<(), Fail> {
    small(
        rt.alloc(),
        &[(
            INVERTING,
            "list 1 1 pairs 3 0 2 items 1 1 1 put 0
             pairs!unknown 5 items!bad7 bad7
             at 6 49664 7874 held export 127 0 127 94 224 224 194",
        )],
    )?;
    small_of(
        rt.alloc(),
        &[127, 0, 127, 94, 224, 224, 194],
        &[(
            INVERTING,
            "by-one 3 1 by-models 1 3 by-items 0 bad7 2 take 1 1 1 0 at 49664 7874 exhausted",
        )],
    )
}

/// Makes decoders that borrow `words` by two constructors. Returns whether both decode 1 and 3 and reach the end.
fn lent_give(words: &Vec<u8>, table: &Table) -> bool {
    let (Ok(mut first), Ok(mut second)) = (
        Lent::<u8, u16>::for_compressed(words),
        Lent::<u8, u16>::from_compressed(words.as_slice()),
    ) else {
        return false;
    };
    take_each(&mut first, table, &[1, 3]).is_empty()
        && take_each(&mut second, table, &[1, 3]).is_empty()
        && first.maybe_exhausted()
        && BoundedReadWords::<u8, Queue>::remaining(second.bulk()) == 0
}

#[test]
fn calls_of_a_decoder(rt: HostRuntime) -> Result<(), Fail> {
    let table: Table = WeightTable::new(rt.alloc(), INVERTING)?;
    let words = [127u8, 127, 1].to_vec(rt.alloc())?;
    assert!(rt; lent_give(&words, &table));
    Ok(())
}

/// Checks that the default interval and the default situation are those of a new encoder.
#[test]
fn default_state(rt: HostRuntime) {
    assert!(rt; is_interval(RangeCoderState::<u8, u16>::default(), &[0, 65535], 0));
    assert!(rt; is_situation(EncoderSituation::<u8>::default(), &[]));
}

/// Checks that the decoder inside a switch decodes the third symbol with the first table, after the flag.
#[test]
fn calls_of_a_switch(rt: HostRuntime) -> Result<(), Fail> {
    let tables = tables_of(rt.alloc(), &[128, 64, 64])?;
    let Some(mut switch) = switch_of(&[88]) else {
        return Err(Fail::from("no switch"));
    };
    assert!(rt; super::flagged::gives(&mut switch, &tables, &[0, 1]));
    let mut decoder = switch.into_inner();
    assert!(rt; take_each(&mut decoder, &tables.first, &[2]).is_empty());
    Ok(())
}
