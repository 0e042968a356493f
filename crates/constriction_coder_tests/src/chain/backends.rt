//! A test of seeking with a coder that reads its compressed words from a buffer through a cursor.

use super::coders::{Table, WEIGHTS};
use crate::scripts::answers::DONE;
use crate::scripts::taking::take_each;
use constriction_base::backends::{Pos, Seek};
use constriction_base::cursor::Cursor;
use constriction_base::weights::WeightTable;
use constriction_chain::ChainCoder;
use std::test::Fail;

/// A coder with 8-bit words that can seek. A cursor reads its compressed words from a buffer.
type Seekable = ChainCoder<u8, u16, Cursor<u8, Vec<u8>>, Vec<u8>, 8>;

/// Decodes a symbol, seeks back, and decodes it again. Returns whether all calls return what is expected.
fn takes_again(coder: &mut Seekable, table: &Table) -> bool {
    let first = take_each(coder, table, &[1]);
    let place = coder.pos();
    let second = take_each(coder, table, &[0]);
    let end = coder.pos();
    let is_back = coder.seek(place).is_ok() & (coder.pos() == place);
    let again = take_each(coder, table, &[0]);
    let are_given = (first == DONE) & (second == DONE) & (again == DONE);
    are_given & is_back & (place.0.compressed == 1) & (coder.pos() == end)
}

#[test]
fn chain_seek(rt: HostRuntime) -> Result<(), Fail> {
    let table: Table = WeightTable::new(rt.alloc(), WEIGHTS)?;
    let words = Cursor::new_at_write_end([10u8, 20, 30].to_vec(rt.alloc())?);
    let Ok(mut coder): Result<Seekable, _> = ChainCoder::from_compressed(rt.alloc(), words) else {
        return Err(Fail::from("import"));
    };
    assert!(rt; takes_again(&mut coder, &table));
    Ok(())
}
