//! Tests of calls over a vector, where one request for memory is refused.
//!
//! `tests/refused_memory` runs these tests once per memory request that they make, and refuses that request. If a call
//! makes the refused request, the test checks three facts:
//!
//! - The call reports that there is no memory.
//! - The call consumes the coder, or leaves the coder as the test expects.
//! - The call, or the rest of the call, succeeds when the test makes it again.
//!
//! If all three hold, the test fails with the call's name, as `tests/refused_memory` expects. If the test itself makes
//! the request, it fails with `Memory`. If no request is refused, a test passes.

use super::coders::{Coder, INVERTING, Table};
use super::encoding::{encode_by, follow};
use super::flagged::{Tables, put_flagged, tables_of};
use crate::scripts::answers::{DONE, MEMORY, OTHER};
use crate::scripts::putting::put_each;
use crate::scripts::script::Script;
use constriction_base::weights::WeightTable;
use std::alloc::{AllocError, Global};
use std::test::Fail;

/// The act that makes an encoder with one written word, one pending word, and a vector without room for another word.
const START: &str = "parts 33024 65280 1 126 7";

/// The acts that check the encoder that `START` makes.
const STARTED: &str = "written 7 at 2 33024 65280 sealed 7 126 129";

/// A call, and the scripts that check the encoder after the call.
#[derive(Clone, Copy)]
struct Call {
    name: &'static str,
    act: &'static str,
    /// The script that checks the encoder after a refusal, and makes the rest of the call.
    kept: &'static str,
    /// The script that checks the encoder after the whole call.
    done: &'static str,
}

/// Runs a script. Returns `DONE`, `OTHER` if an act fails, or `MEMORY` if there is no memory for the script.
fn goes(alloc: Global, encoder: &mut Coder, table: &Table, text: &'static str) -> &'static str {
    match Script::read(alloc, text) {
        Ok(script) => match follow(alloc, encoder, table, &script) {
            Some(_) => OTHER,
            None => DONE,
        },
        Err(AllocError) => MEMORY,
    }
}

/// Runs the first act of a script, and returns its answer.
fn does(alloc: Global, encoder: &mut Coder, table: &Table, text: &'static str) -> &'static str {
    match Script::read(alloc, text) {
        Ok(script) => encode_by(alloc, encoder, table, &script.act(0)),
        Err(AllocError) => MEMORY,
    }
}

/// Makes a call and checks the encoder. Returns the error of the test, or `DONE`.
///
/// If the call is refused memory, the function checks the encoder, makes the rest of the call, and returns the call's
/// name.
fn comes_of(alloc: Global, encoder: &mut Coder, table: &Table, call: &Call) -> &'static str {
    if goes(alloc, encoder, table, START) != DONE {
        return MEMORY;
    }
    match does(alloc, encoder, table, call.act) {
        "no-memory" if goes(alloc, encoder, table, call.kept) == DONE => {
            match goes(alloc, encoder, table, call.done) {
                DONE => call.name,
                _ => OTHER,
            }
        }
        DONE => goes(alloc, encoder, table, call.done),
        answer => answer,
    }
}

/// The names and acts of the list calls. The second symbol takes two words, for which the vector has no room.
const LISTS: &[(&str, &str)] = &[
    ("encode_iid_symbols", "list 1 3 1"),
    ("encode_symbols", "pairs 1 3 1"),
    ("try_encode_symbols", "items 1 3 1"),
];

/// The calls other than list calls, with the scripts that check the coder.
const CALLS: &[Call] = &[
    Call {
        name: "encode_symbol",
        act: "put 3",
        kept: "written 7 at 2 33024 65280 sealed 7 126 129 put 3",
        done: "written 7 127 at 3 256 65280 sealed 7 127 127 1",
    },
    Call {
        name: "get_compressed",
        act: "shown 7 126 129",
        kept: "written 7 at 2 33024 65280 shown 7 126 129",
        done: STARTED,
    },
    Call {
        name: "with_compressed",
        act: "lent 7 126 129",
        kept: "written 7 at 2 33024 65280 lent 7 126 129",
        done: STARTED,
    },
    Call {
        name: "decoder",
        act: "decoded 0",
        kept: "written 7 at 2 33024 65280 decoded 0",
        done: STARTED,
    },
];

/// Makes a call on a new encoder. Fails with the error that [`comes_of`] returns.
fn call_goes(alloc: Global, table: &Table, call: &Call) -> Result<(), Fail> {
    let mut encoder = Coder::new(alloc);
    match comes_of(alloc, &mut encoder, table, call) {
        DONE => Ok(()),
        said => Err(Fail::from(said)),
    }
}

/// Encodes symbols with a flag, and encodes the remaining symbols after a refusal. Returns the test's error, or `DONE`.
fn flagged_goes(alloc: Global, encoder: &mut Coder, tables: &Tables) -> &'static str {
    if goes(alloc, encoder, &tables.first, START) != DONE {
        return MEMORY;
    }
    let done = "written 7 127 0 at 3 16448 4080 sealed 7 127 0 65";
    match put_flagged(encoder, tables, &[1, 3, 0]) {
        "no-memory" => {
            let kept = "written 7 at 3 33024 65280 sealed 7 126 255 129";
            let is_kept = goes(alloc, encoder, &tables.first, kept) == DONE;
            let is_put = put_each(encoder, &tables.second, &[3, 0]) == DONE;
            if is_kept & is_put & (goes(alloc, encoder, &tables.first, done) == DONE) {
                "encode_flagged"
            } else {
                OTHER
            }
        }
        DONE => goes(alloc, encoder, &tables.first, done),
        answer => answer,
    }
}

#[test]
fn refused_requests_of_calls(rt: HostRuntime) -> Result<(), Fail> {
    let tables = tables_of(rt.alloc(), INVERTING)?;
    for call in CALLS {
        call_goes(rt.alloc(), &tables.first, call)?;
    }
    for (name, act) in LISTS {
        // the first symbol is kept
        let call = Call {
            name,
            act,
            kept: "written 7 at 3 33024 65280 sealed 7 126 255 129 list 3 1",
            done: "written 7 127 0 127 at 5 33024 65280 sealed 7 127 0 127 127 129",
        };
        call_goes(rt.alloc(), &tables.first, &call)?;
    }
    let mut encoder = Coder::new(rt.alloc());
    match flagged_goes(rt.alloc(), &mut encoder, &tables) {
        DONE => Ok(()),
        said => Err(Fail::from(said)),
    }
}

/// Exports an encoder with an act, or exports `copy` if there is no memory. Returns the test's error, or `DONE`.
fn take_or_copy(
    alloc: Global,
    encoder: &mut Coder,
    copy: &mut Coder,
    table: &Table,
    (name, act): (&'static str, &'static str),
) -> &'static str {
    let is_start = goes(alloc, encoder, table, STARTED) == DONE;
    if !(is_start & (goes(alloc, copy, table, STARTED) == DONE)) {
        return MEMORY;
    }
    match does(alloc, encoder, table, act) {
        "no-memory" if does(alloc, copy, table, act) == DONE => name,
        answer => answer,
    }
}

/// Clones an encoder and exports it. If the clone is refused, clones it again. Returns the test's error, or `DONE`.
fn export_goes(
    alloc: Global,
    encoder: &mut Coder,
    table: &Table,
    act: (&'static str, &'static str),
) -> &'static str {
    if goes(alloc, encoder, table, START) != DONE {
        return MEMORY;
    }
    match encoder.clone() {
        Ok(mut copy) => take_or_copy(alloc, encoder, &mut copy, table, act),
        Err(AllocError) => match encoder.clone() {
            Ok(mut copy) => {
                let is_start = goes(alloc, encoder, table, STARTED) == DONE;
                if is_start & (goes(alloc, &mut copy, table, STARTED) == DONE) {
                    "clone"
                } else {
                    OTHER
                }
            }
            Err(AllocError) => OTHER,
        },
    }
}

#[test]
fn refused_requests_of_exports(rt: HostRuntime) -> Result<(), Fail> {
    let table: Table = WeightTable::new(rt.alloc(), INVERTING)?;
    let acts = [
        ("into_compressed", "export 7 126 129"),
        ("into_self_delimited", "delimited 7 126 129"),
        ("into_decoder", "owned 0"),
    ];
    for act in acts {
        let mut encoder = Coder::new(rt.alloc());
        let said = export_goes(rt.alloc(), &mut encoder, &table, act);
        if said != DONE {
            return Err(Fail::from(said));
        }
    }
    Ok(())
}
