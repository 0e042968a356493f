//! A test of `exchange`, which decodes one symbol and encodes another, with 8-bit words and 16-bit heads.

use super::given::{Table, tables_of};
use super::stack::coder_of;
use constriction_laws::bounds::words::exchange;
use std::alloc::Global;
use std::test::Fail;

/// Decodes a symbol from the words 1, 2 and 3, and encodes another symbol. Returns whether the first symbol is 0.
///
/// The head of these words is 770, and its quantile is 2.
fn is_exchanged(alloc: Global, tables: &[Table; 2]) -> bool {
    let Some(mut coder) = coder_of(alloc, &[1, 2, 3]) else {
        return false;
    };
    match exchange::<u8, u16, Vec<u8>, _, _, 8>(&mut coder, &tables[0], &1, &tables[1]) {
        Ok(taken) => taken == 0,
        Err(_) => false,
    }
}

#[test]
fn symbols_are_exchanged(rt: HostRuntime) -> Result<(), Fail> {
    let tables = tables_of(rt.alloc())?;
    assert!(rt; is_exchanged(rt.alloc(), &tables));
    Ok(())
}
