//! Tests of calls over a vector, where one request for memory is refused.
//!
//! `tests/refused_memory` runs these tests once per memory request that they make, and refuses that request. If a call
//! makes the refused request, the test checks three facts:
//!
//! - The call reports that there is no memory.
//! - The call consumes the coder, or leaves the coder as the test expects.
//! - The call, or the rest of the call, succeeds when the test makes it again.
//!
//! If all three hold, the test fails with the call's name, as `tests/refused_memory` expects. If the test itself makes
//! the request, it fails with `Memory`. If no request is refused, a test passes.
//!
//! The heads and words are computed by hand.

use super::coders::{Small, Table};
use super::owning::{export, export_binary, follow_owning, own_by};
use crate::scripts::answers::{DONE, MEMORY, OTHER};
use crate::scripts::script::Script;
use constriction_base::weights::WeightTable;
use constriction_stack::AnsCoder;
use constriction_stream::coder::Code;
use std::alloc::{AllocError, Global};
use std::test::Fail;

/// A call, and the scripts that check the coder after the call.
#[derive(Clone, Copy)]
struct Call {
    name: &'static str,
    act: &'static str,
    /// The script that checks the coder after a refusal, and makes the rest of the call.
    kept: &'static str,
    /// The script that checks the coder after the whole call.
    done: &'static str,
}

/// Runs a script. Returns `DONE`, `OTHER` if an act fails, or `MEMORY` if there is no memory for the script.
fn goes(alloc: Global, coder: &mut Small, table: &Table, text: &'static str) -> &'static str {
    match Script::read(alloc, text) {
        Ok(script) => match follow_owning(alloc, coder, table, &script) {
            Some(_) => OTHER,
            None => DONE,
        },
        Err(AllocError) => MEMORY,
    }
}

/// Runs the first act of a script, and returns its answer.
fn does(alloc: Global, coder: &mut Small, table: &Table, text: &'static str) -> &'static str {
    match Script::read(alloc, text) {
        Ok(script) => own_by(alloc, coder, table, &script.act(0)),
        Err(AllocError) => MEMORY,
    }
}

/// Makes a call and checks the coder. Returns the error of the test, or `DONE`.
///
/// Before the call, the coder has the head 300, the word 7, and a vector without room for another word. If the call is
/// refused memory, the function checks the coder, makes the rest of the call, and returns the call's name.
fn comes_of(alloc: Global, coder: &mut Small, table: &Table, call: &Call) -> &'static str {
    if goes(alloc, coder, table, "of 300 7") != DONE {
        return MEMORY;
    }
    match does(alloc, coder, table, call.act) {
        "no-memory" if goes(alloc, coder, table, call.kept) == DONE => {
            match goes(alloc, coder, table, call.done) {
                DONE => call.name,
                _ => OTHER,
            }
        }
        DONE => goes(alloc, coder, table, call.done),
        answer => answer,
    }
}

/// The names and acts of the list calls, which encode the symbols in the order 0, 2, 1.
const LISTS: &[(&str, &str)] = &[
    ("encode_iid_symbols", "list 0 2 1"),
    ("encode_symbols", "pairs 0 2 1"),
    ("try_encode_symbols", "items 0 2 1"),
    ("encode_iid_symbols_reverse", "back 1 2 0"),
    ("encode_symbols_reverse", "pairs-back 1 2 0"),
    ("try_encode_symbols_reverse", "items-back 1 2 0"),
];

/// The calls other than list calls, with the scripts that check the coder.
const CALLS: &[Call] = &[
    Call {
        name: "encode_symbol",
        act: "put 2",
        kept: "head 300 words 7 put 2",
        done: "head 511 words 7 44",
    },
    Call {
        name: "get_compressed",
        act: "shows 7 44 1",
        kept: "head 300 words 7 shows 7 44 1",
        done: "head 300 words 7",
    },
    Call {
        name: "get_binary",
        act: "shows-binary 7 44",
        kept: "head 300 words 7 shows-binary 7 44",
        done: "head 300 words 7",
    },
];

/// Makes a call on a new coder. Fails with the error that [`comes_of`] returns.
fn call_goes(alloc: Global, table: &Table, call: &Call) -> Result<(), Fail> {
    let mut coder: Small = AnsCoder::new(alloc);
    match comes_of(alloc, &mut coder, table, call) {
        DONE => Ok(()),
        said => Err(Fail::from(said)),
    }
}

#[test]
fn refused_requests_of_calls(rt: HostRuntime) -> Result<(), Fail> {
    let table = WeightTable::new(rt.alloc(), &[200, 55, 1])?;
    for call in CALLS {
        call_goes(rt.alloc(), &table, call)?;
    }
    for (name, act) in LISTS {
        // the first symbol is kept, and the second one owes a word
        let call = Call {
            name,
            act,
            kept: "head 356 words 7 put 2 1",
            done: "head 2520 words 7 100",
        };
        call_goes(rt.alloc(), &table, &call)?;
    }
    Ok(())
}

/// Exports a coder, and compares the words with the expected words.
///
/// Returns the answer, a word of a script ([`crate::scripts::answers`]).
fn exports(coder: Small, is_binary: bool) -> &'static str {
    if is_binary {
        export_binary(coder, &[7, 44])
    } else {
        export(coder, &[7, 44, 1])
    }
}

/// Returns whether the coder has the head 300 and the word 7.
fn holds(coder: &Small) -> bool {
    coder.state() == 300 && coder.bulk().as_slice() == [7u8].as_slice()
}

/// Exports a coder, or exports `copy` if there is no memory. Returns the test's error, or `DONE`.
fn export_or_copy(coder: Small, copy: Small, is_binary: bool, name: &'static str) -> &'static str {
    if !(holds(&coder) & holds(&copy)) {
        return OTHER;
    }
    match exports(coder, is_binary) {
        "no-memory" if exports(copy, is_binary) == DONE => name,
        answer => answer,
    }
}

/// Clones a coder and exports it. If the clone is refused, clones it again. Returns the test's error, or `DONE`.
fn export_goes(alloc: Global, is_binary: bool, name: &'static str) -> Result<&'static str, Fail> {
    let coder: Small = AnsCoder::from_raw_parts([7u8].to_vec(alloc)?, 300);
    match coder.clone() {
        Ok(copy) => Ok(export_or_copy(coder, copy, is_binary, name)),
        Err(AllocError) => match coder.clone() {
            Ok(copy) if holds(&copy) & holds(&coder) => Ok("clone"),
            _ => Ok(OTHER),
        },
    }
}

#[test]
fn refused_requests_of_exports(rt: HostRuntime) -> Result<(), Fail> {
    for (is_binary, name) in [(false, "into_compressed"), (true, "into_binary")] {
        let said = export_goes(rt.alloc(), is_binary, name)?;
        if said != DONE {
            return Err(Fail::from(said));
        }
    }
    Ok(())
}
