//! Tests of worked examples: scripts that check exact values of symbols, heads and words.

use super::changes::{Either, Tables, decrease, follow_changes};
use super::coders::{Coarse, Part, WEIGHTS, coarse, empty, fine, said, small, wide};
use crate::scripts::script::Script;
use constriction_base::weights::WeightTable;
use constriction_chain::{ChainCoder, DefaultChainCoder};
use std::test::Fail;

/// Checks the default coder. The first quantile is 2241348, which is the only quantile of symbol 1.
#[test]
fn chain_default(rt: HostRuntime) -> Result<(), Fail> {
    let words = [287454020u32, 256].to_vec(rt.alloc())?;
    let Ok(coder): Result<DefaultChainCoder, _> = ChainCoder::from_compressed(rt.alloc(), words)
    else {
        return Err(Fail::from("import"));
    };
    assert!(rt; matches!(decrease::<u32, u64, 24, 16>(&coder), Err("ended")));
    wide(
        rt.alloc(),
        &[2241348, 1, 14535867],
        "import 287454020 256 heads 1 256
         take 1 heads 273 256 compressed remainders
         next!ended heads 273 256 compressed remainders",
    )
}

#[test]
fn chain_split(rt: HostRuntime) -> Result<(), Fail> {
    wide(
        rt.alloc(),
        &[8388608, 8388608],
        "import 287454020 256 take 0 prefix suffix 2149724996 273",
    )
}

#[test]
fn chain_there_and_back(rt: HostRuntime) -> Result<(), Fail> {
    fine(
        rt.alloc(),
        "import 10 20 30
         take 1 heads 1 28
         prefix 10 suffix 36 28 1
         import-remainders 36 28 1
         put 1
         rest export 20 30",
    )
}

#[test]
fn chain_binary(rt: HostRuntime) -> Result<(), Fail> {
    fine(
        rt.alloc(),
        "import-binary 10 20 30
         take 1 heads 1 254
         prefix 10 20 suffix 254 1
         import-remainders 254 1
         put 1
         export-binary 30 rest-binary",
    )
}

/// Checks that the quantiles are 11 and 10, whatever the first model is.
///
/// The quantile 10 is the only quantile of symbol 1 in the last table.
#[test]
fn chain_isolation(rt: HostRuntime) -> Result<(), Fail> {
    coarse(
        rt.alloc(),
        &[(
            &[5, 11],
            "import 171 18
             take 1 heads 26 204
             take 1 heads 1 2249 whole
             next!ended heads 1 2249",
        )],
    )?;
    let others: [Part<'_, u8>; 3] = [
        (&[11, 1, 4], "import 171 18 take 1"),
        (&[12, 4], "import 171 18 take 0"),
        (&[1, 15], "import 171 18 take 1"),
    ];
    for first in others {
        coarse(
            rt.alloc(),
            &[first, (&[10, 1, 5], "take 1 whole next!ended")],
        )?;
    }
    Ok(())
}

/// Checks the remainders head and the remainders at each change of the precision.
///
/// 2249 is `8 * 256 + 201`: the number 8 above the word 201. The window at 4 bits of precision contains 2249, and the
/// window at 8 bits contains 8. Both windows contain 18.
#[test]
fn chain_precision_changes(rt: HostRuntime) -> Result<(), Fail> {
    let tables = Tables {
        coarse: WeightTable::new(rt.alloc(), &[5, 11])?,
        fine: WeightTable::new(rt.alloc(), WEIGHTS)?,
    };
    let script = Script::read(
        rt.alloc(),
        "import 171 18 take 1 1 heads 1 2249
         increase heads 1 8 remainders 201
         decrease heads 1 2249 remainders
         change-none heads 1 2249 remainders
         change heads 1 8 remainders 201
         change heads 1 2249 remainders
         import 171 18 increase heads 1 18 remainders",
    )?;
    let Some(coder): Option<Coarse> = empty(rt.alloc(), 16) else {
        return Err(Fail::from("no coder"));
    };
    said(follow_changes(rt.alloc(), &mut Either::Coarse(coder), &tables, &script))
}

/// Checks that imports of too few words are refused. The window at 12 bits of precision begins at 16.
#[test]
fn chain_too_short(rt: HostRuntime) -> Result<(), Fail> {
    small(
        rt.alloc(),
        &[4096],
        "import!leaves-none
         import-binary!leaves-none
         import!leaves-one 7 0
         import!leaves-none 15
         import 16 heads 1 16
         import-remainders!leaves-two 7 5 0
         import-remainders!leaves-one 7 0 5
         import-remainders!leaves-none 15 5
         import-remainders 16 5 heads 5 16",
    )
}
