//! The interpreter of scripts on coders that can encode and decode.

use super::reading::{Below, is_at_head};
use crate::scripts::answers::{OTHER, ScriptWord, answer_if};
use crate::scripts::numbers::{Number, same};
use crate::scripts::putting::{put_back_by, put_by};
use crate::scripts::script::{Act, Script, find};
use crate::scripts::taking::take_by;
use constriction_base::backends::{BoundedReadWords, ReadWords, Stack, WriteWords};
use constriction_base::errors::CoderError;
use constriction_base::weights::WeightTable;
use constriction_stack::AnsCoder;
use constriction_stream::decoding::Decode;
use constriction_stream::encoding::Encode;
use constriction_words::{BitArray, WordOf};
use std::alloc::Global;

/// A check that leaves the coder unchanged.
#[derive(Clone, Copy)]
enum Shows {
    Head,
    Words,
    Shown,
    ShownBinary,
    Sizes,
    Empty,
    Full,
    NoLimit,
    Exhausted,
}

/// The verbs of checks.
///
/// - `head` compares the head. `words` compares the words below the head, with the top word last.
/// - `shows` and `shows-binary` compare the words that a guard lends.
/// - `sizes` compares the numbers of words, bits and valid bits.
/// - `empty` checks that the coder is empty, `full` that it may be full, and `exhausted` that it may be exhausted.
/// - `no-limit` checks that the coder isn't full and can encode any number of symbols.
const SHOWS: &[(&str, Shows)] = &[
    ("head", Shows::Head),
    ("words", Shows::Words),
    ("shows", Shows::Shown),
    ("shows-binary", Shows::ShownBinary),
    ("sizes", Shows::Sizes),
    ("empty", Shows::Empty),
    ("full", Shows::Full),
    ("no-limit", Shows::NoLimit),
    ("exhausted", Shows::Exhausted),
];

/// Compares the words that a guard lends with `numbers`.
///
/// Returns the answer, a word of a script ([`crate::scripts::answers`]).
fn shown<Word, State, Backend>(
    coder: &mut AnsCoder<Word, State, Backend>,
    numbers: &[u128],
) -> &'static str
where
    Word: WordOf<State> + Number,
    State: BitArray,
    Backend: WriteWords<Word> + ReadWords<Word, Stack> + Below<Word>,
    Backend::ReadError: Drop,
    Backend::WriteError: ScriptWord + Drop,
{
    match coder.get_compressed() {
        Ok(guard) => answer_if(same(guard.backend().below(), numbers)),
        Err(error) => error.told(),
    }
}

/// Compares the words in binary form that a guard lends with `numbers`.
///
/// Returns the answer, a word of a script ([`crate::scripts::answers`]).
fn shown_in_binary<Word, State, Backend>(
    coder: &mut AnsCoder<Word, State, Backend>,
    numbers: &[u128],
) -> &'static str
where
    Word: WordOf<State> + Number,
    State: BitArray,
    Backend: WriteWords<Word> + ReadWords<Word, Stack> + Below<Word>,
    Backend::ReadError: Drop,
    Backend::WriteError: ScriptWord + Drop,
{
    match coder.get_binary() {
        Ok(guard) => answer_if(same(guard.backend().below(), numbers)),
        Err(CoderError::Backend(error)) => error.told(),
        Err(CoderError::Frontend(())) => "no-binary",
    }
}

/// Returns whether `symbols` are the coder's numbers of words, bits and valid bits.
fn has_sizes<Word, State, Backend>(
    coder: &AnsCoder<Word, State, Backend>,
    symbols: &[usize],
) -> bool
where
    Word: WordOf<State>,
    State: BitArray,
    Backend: BoundedReadWords<Word, Stack>,
{
    if !coder.sizes_fit() {
        return false;
    }
    symbols == [coder.num_words(), coder.num_bits(), coder.num_valid_bits()].as_slice()
}

/// Returns whether the coder isn't full and can encode any number of symbols.
fn has_no_limit<C: Encode<PRECISION>, const PRECISION: usize>(coder: &C) -> bool {
    !coder.maybe_full() && coder.symbols_left() == usize::MAX
}

/// Runs an act that checks a coder.
///
/// Returns the answer, a word of a script ([`crate::scripts::answers`]), or `None` for other acts.
fn show_by<Word, State, Backend, const PRECISION: usize>(
    coder: &mut AnsCoder<Word, State, Backend>,
    act: &Act<'_>,
) -> Option<&'static str>
where
    Word: WordOf<State> + Number,
    State: BitArray + Number,
    Backend: WriteWords<Word> + BoundedReadWords<Word, Stack> + Below<Word>,
    Backend::ReadError: Drop,
    Backend::WriteError: ScriptWord + Drop,
{
    let is_so = match find(SHOWS, act.verb)? {
        Shows::Shown => return Some(shown(coder, act.numbers)),
        Shows::ShownBinary => return Some(shown_in_binary(coder, act.numbers)),
        Shows::Head => is_at_head(coder, act),
        Shows::Words => same(coder.bulk().below(), act.numbers),
        Shows::Sizes => has_sizes(coder, act.symbols),
        Shows::Empty => coder.is_empty(),
        Shows::Full => Encode::<PRECISION>::maybe_full(coder),
        Shows::NoLimit => has_no_limit::<_, PRECISION>(coder),
        Shows::Exhausted => Decode::<PRECISION>::maybe_exhausted(coder),
    };
    Some(answer_if(is_so))
}

/// Runs an act with a coder.
///
/// Returns the answer, a word of a script ([`crate::scripts::answers`]).
pub fn act_by<Word, State, Backend, Probability, const PRECISION: usize>(
    alloc: Global,
    coder: &mut AnsCoder<Word, State, Backend>,
    table: &WeightTable<Probability, PRECISION>,
    act: &Act<'_>,
) -> &'static str
where
    Word: WordOf<State> + Number,
    State: BitArray + Number,
    Backend: WriteWords<Word> + BoundedReadWords<Word, Stack> + Below<Word>,
    Backend::ReadError: ScriptWord + Drop,
    Backend::WriteError: ScriptWord + Drop,
    Probability: WordOf<Word>,
{
    if let Some(answer) = put_by(alloc, coder, table, act) {
        return answer;
    }
    if let Some(answer) = put_back_by(alloc, coder, table, act) {
        return answer;
    }
    if let Some(answer) = take_by(alloc, coder, table, act) {
        return answer;
    }
    show_by::<_, _, _, PRECISION>(coder, act).unwrap_or(OTHER)
}

/// Runs a script with a coder, up to the first act with an unexpected answer.
///
/// Returns the text of this act, or `None` if every act has the expected answer.
pub fn follow<Word, State, Backend, Probability, const PRECISION: usize>(
    alloc: Global,
    coder: &mut AnsCoder<Word, State, Backend>,
    table: &WeightTable<Probability, PRECISION>,
    script: &Script,
) -> Option<&'static str>
where
    Word: WordOf<State> + Number,
    State: BitArray + Number,
    Backend: WriteWords<Word> + BoundedReadWords<Word, Stack> + Below<Word>,
    Backend::ReadError: ScriptWord + Drop,
    Backend::WriteError: ScriptWord + Drop,
    Probability: WordOf<Word>,
{
    for at in 0..script.len() {
        let act = script.act(at);
        if act_by(alloc, coder, table, &act) != act.answer {
            return Some(act.text);
        }
    }
    None
}
