//! Tests of calls over vectors, in runs that refuse one request for memory.
//!
//! `tests/refused_memory` runs these tests once for each request for memory that they make, and refuses this request. A
//! test then checks three facts about the call that makes the request:
//!
//! - The call reports that there is no memory.
//! - The call leaves the coder in the expected state.
//! - The whole call, or the part of it that is left, succeeds when it is made again.
//!
//! If all three hold, the test fails with the call's name. If one doesn't hold, the test fails with another text. If
//! the test itself makes the request, it fails with `Memory`. If no request is refused, a test passes.

use super::changes::{Either, Tables, change_by, follow_changes};
use super::coders::{Coarse, Fine, Table, WEIGHTS, empty};
use crate::scripts::answers::{DONE, MEMORY, OTHER, ScriptWord};
use crate::scripts::script::Script;
use constriction_base::weights::WeightTable;
use constriction_stream::decoding::Decode;
use std::alloc::{AllocError, Global};
use std::iter;
use std::test::Fail;

/// The four scripts of a call.
///
/// - The first script makes the coder before the call, with room for no word or for one word.
/// - The second script checks the coder after a refusal.
/// - The third script makes the rest of the call after a refusal. If it is empty, the whole call is made again.
/// - The fourth script checks the coder in the end.
type Case = [&'static str; 4];

/// The name of a call, and the act that makes the call.
type Call = (&'static str, &'static str);

/// Runs a script. Returns the error of the act that failed, or `DONE`.
fn goes(alloc: Global, coder: &mut Either, tables: &Tables, text: &'static str) -> &'static str {
    match Script::read(alloc, text) {
        Ok(script) => follow_changes(alloc, coder, tables, &script).unwrap_or(DONE),
        Err(AllocError) => MEMORY,
    }
}

/// Returns the answer of the second of two decodes, both of which should return the symbol 1.
fn second<E: ScriptWord + Drop>(
    first: Option<Result<usize, E>>,
    second: Option<Result<usize, E>>,
) -> &'static str {
    match (first, second) {
        (Some(Ok(1)), Some(Ok(1))) => DONE,
        (Some(Ok(1)), Some(Err(error))) => error.told(),
        _ => OTHER,
    }
}

/// Decodes two symbols with the iterator of the call `name`.
///
/// Returns the answer, a word of a script ([`crate::scripts::answers`]).
fn take_two(coder: &mut Fine, table: &Table, name: &str) -> &'static str {
    match name {
        "decode_iid_symbols" => {
            let mut given = coder.decode_iid_symbols(2, table);
            second(given.next(), given.next())
        }
        "decode_symbols" => {
            let mut given = coder.decode_symbols(iter::repeat_n(table, 2));
            second(given.next(), given.next())
        }
        _ => {
            let mut given = coder.try_decode_symbols(iter::repeat_n(Ok::<_, u8>(table), 2));
            second(given.next(), given.next())
        }
    }
}

/// Makes a call, and returns the answer. The act `two` decodes two symbols.
fn makes(alloc: Global, coder: &mut Either, tables: &Tables, (name, act): Call) -> &'static str {
    let Ok(script) = Script::read(alloc, act) else {
        return MEMORY;
    };
    match coder {
        Either::Fine(coder) if act == "two" => take_two(coder, &tables.fine, name),
        _ => change_by(alloc, coder, tables, &script.act(0)),
    }
}

/// Makes a call and checks the coder. Returns the error of the test, or `DONE`.
///
/// If memory is refused, the function checks the coder, makes the rest of the call, and returns the call's name.
fn comes_of(
    alloc: Global,
    coder: &mut Either,
    tables: &Tables,
    [start, kept, rest, done]: Case,
    call: Call,
) -> &'static str {
    if goes(alloc, coder, tables, start) != DONE {
        return MEMORY;
    }
    match makes(alloc, coder, tables, call) {
        "no-memory" => {
            let kept = goes(alloc, coder, tables, kept);
            let rest = match rest {
                "" => makes(alloc, coder, tables, call),
                rest => goes(alloc, coder, tables, rest),
            };
            for said in [kept, rest, goes(alloc, coder, tables, done)] {
                if said != DONE {
                    return said;
                }
            }
            call.0
        }
        DONE => goes(alloc, coder, tables, done),
        answer => answer,
    }
}

/// Makes the calls of all groups one after another. Returns the first error of a call as the error of the test.
fn all_go(alloc: Global, coder: &mut Either, groups: &[(Case, &[Call])]) -> Result<(), Fail> {
    let tables = Tables {
        coarse: WeightTable::new(alloc, &[5, 11])?,
        fine: WeightTable::new(alloc, WEIGHTS)?,
    };
    for (case, calls) in groups {
        for call in *calls {
            let said = comes_of(alloc, coder, &tables, *case, *call);
            if said != DONE {
                return Err(Fail::from(said));
            }
        }
    }
    Ok(())
}

/// The calls at a precision of 8 bits.
///
/// There is no room for the word that an encode of one symbol writes. A list call has room for its first symbol. A
/// decode asks for room before it reads. If two symbols are decoded, there is room for the first.
const CALLS: &[(Case, &[Call])] = &[
    (
        [
            "import 9 3 20 200 100 26 take 1 1 again",
            "heads 1 23 compressed 9 3 20 remainders 180 56",
            "",
            "heads 1 24 compressed 9 3 20 200 remainders 180",
        ],
        &[("encode_symbol", "put 1")],
    ),
    (
        [
            "import 9 3 20 200 100 26 take 1 1 again take 1",
            "heads 1 1 compressed 9 3 5 remainders 180 56 148",
            "put 1 0",
            "heads 1 19 compressed 9 3 5 180 8 remainders 180",
        ],
        &[
            ("encode_iid_symbols", "list 0 1 0"),
            ("encode_symbols", "pairs 0 1 0"),
            ("try_encode_symbols", "items 0 1 0"),
            ("encode_iid_symbols_reverse", "back 0 1 0"),
        ],
    ),
    (
        [
            "import 9 3 20 200 100 26 take 1 1 again take 1",
            "heads 1 1 compressed 9 3 5 remainders 180 56 148",
            "put 1",
            "heads 1 1 compressed 9 3 5 180 remainders 180 56",
        ],
        &[
            ("encode_symbols_reverse", "pairs-back 1 0"),
            ("try_encode_symbols_reverse", "items-back 1 0"),
        ],
    ),
    (
        [
            "import 9 3 20 200 100 26 take 1 1 again",
            "heads 1 23 compressed 9 3 20 remainders 180 56",
            "",
            "heads 1 21 compressed 9 3 remainders 180 56 148",
        ],
        &[("decode_symbol", "take 1")],
    ),
    (
        [
            "import 9 3 20 200 100 26 take 1 1 again put 1",
            "heads 1 23 compressed 9 3 20 remainders 180 56",
            "take 1",
            "heads 1 21 compressed 9 3 remainders 180 56 148",
        ],
        &[
            ("decode_iid_symbols", "two"),
            ("decode_symbols", "two"),
            ("try_decode_symbols", "two"),
        ],
    ),
];

#[test]
fn refused_requests_of_calls(rt: HostRuntime) -> Result<(), Fail> {
    let Some(coder): Option<Fine> = empty(rt.alloc(), 1) else {
        return Err(Fail::from("no coder"));
    };
    all_go(rt.alloc(), &mut Either::Fine(coder), CALLS)
}

/// The calls at a precision of 4 bits. They export a copy of the coder, or replace the coder by a copy.
const EXPORTS: &[(Case, &[Call])] = &[
    (
        [
            "import 49 5 17 8 take 1 0 again",
            "heads 1 440 compressed 49 remainders 187",
            "",
            "heads 1 440 compressed 49 remainders 187",
        ],
        &[
            ("clone", "clone"),
            ("into_remainders", "suffix 187 184 1 1"),
            ("into_compressed", "export 49 184 1"),
            ("into_binary", "export-binary 49 184"),
        ],
    ),
    (
        [
            "import 49 5 17 8 take 1 0 again",
            "heads 1 440 compressed 49 remainders 187",
            "",
            "heads 1 1 compressed 49 remainders 187 184 change",
        ],
        &[
            ("increase_precision", "increase"),
            ("change_precision", "change"),
        ],
    ),
];

#[test]
fn refused_requests_of_exports(rt: HostRuntime) -> Result<(), Fail> {
    let Some(coder): Option<Coarse> = empty(rt.alloc(), 16) else {
        return Err(Fail::from("no coder"));
    };
    all_go(rt.alloc(), &mut Either::Coarse(coder), EXPORTS)
}
