//! The interpreter of scripts on coders over vectors. It also makes coders, takes them apart and exports them.

ghost use Rattle.constriction_base.specs.Steps.{IsSizes};

use super::acts::act_by;
use super::reading::{Below, seek, stands_at};
use crate::scripts::answers::{DONE, MEMORY, OTHER, ScriptWord, answer_if};
use crate::scripts::numbers::{Number, same, words_of};
use crate::scripts::script::{Act, Script, find};
use crate::scripts::taking::take_each;
use constriction_base::backends::{ReadWords, Stack, WriteWords};
use constriction_base::cursor::Cursor;
use constriction_base::weights::WeightTable;
use constriction_stack::AnsCoder;
use constriction_stream::coder::Code;
use constriction_stream::conversions::{AsDecoder, IntoDecoder};
use constriction_words::{BitArray, WordOf};
use std::alloc::{AllocError, Global};
use std::mem;

/// An act on a coder over a vector.
#[derive(Clone, Copy)]
enum Owned {
    Make(Make),
    Lend(Lend),
    Export,
    ExportBinary,
    Given,
    At,
    Seek,
}

/// A way to replace a coder by another coder.
#[derive(Clone, Copy)]
enum Make {
    Clear,
    Of,
    Import,
    ImportBinary,
    Parts,
}

/// A way to get a decoder from a coder.
#[derive(Clone, Copy)]
enum Lend {
    Lent,
    LentByTrait,
    Made,
    Owned,
    OwnedByTrait,
}

/// The verbs of coders over vectors.
///
/// - `clear` clears the coder. `of` makes a coder from a head and words. `import` and `import-binary` import a coder
///   from words. `parts` takes the coder apart and puts it together again.
/// - `lent`, `lent-by-trait` and `made` decode all symbols with a decoder that borrows the words. `owned` and
///   `owned-by-trait` decode all symbols with a decoder that owns the words, and leave a new coder.
/// - `export` and `export-binary` compare the exported words, and leave a new coder. `given` compares the words that
///   an iterator returns.
/// - `at` compares the position: a place and a head. `seek` seeks to a place and a head.
const VERBS: &[(&str, Owned)] = &[
    ("clear", Owned::Make(Make::Clear)),
    ("of", Owned::Make(Make::Of)),
    ("import", Owned::Make(Make::Import)),
    ("import-binary", Owned::Make(Make::ImportBinary)),
    ("parts", Owned::Make(Make::Parts)),
    ("lent", Owned::Lend(Lend::Lent)),
    ("lent-by-trait", Owned::Lend(Lend::LentByTrait)),
    ("made", Owned::Lend(Lend::Made)),
    ("owned", Owned::Lend(Lend::Owned)),
    ("owned-by-trait", Owned::Lend(Lend::OwnedByTrait)),
    ("export", Owned::Export),
    ("export-binary", Owned::ExportBinary),
    ("given", Owned::Given),
    ("at", Owned::At),
    ("seek", Owned::Seek),
];

/// Replaces the coder by a coder with the head and the words in `numbers`.
///
/// Returns the answer, a word of a script ([`crate::scripts::answers`]).
fn make_of<Word, State>(
    alloc: Global,
    coder: &mut AnsCoder<Word, State>,
    numbers: &[u128],
) -> &'static str
where
    Word: WordOf<State> + Number,
    State: BitArray + Number,
    requires { IsSizes Word.BITS State.BITS }
{
    let Some((head, rest)) = numbers.split_first() else {
        return OTHER;
    };
    match words_of(alloc, rest) {
        Ok(words) => {
            *coder = AnsCoder::from_raw_parts(words, State::of(*head));
            DONE
        }
        Err(AllocError) => MEMORY,
    }
}

/// Replaces the coder by a coder that imports the words `numbers`.
///
/// Returns the answer, a word of a script ([`crate::scripts::answers`]).
///
/// The answer is `none` if the import is refused, and the error has all words except the last.
fn import<Word, State>(
    alloc: Global,
    coder: &mut AnsCoder<Word, State>,
    numbers: &[u128],
) -> &'static str
where
    Word: WordOf<State> + Number,
    State: BitArray,
    requires { IsSizes Word.BITS State.BITS }
{
    let Ok(words) = words_of::<Word>(alloc, numbers) else {
        return MEMORY;
    };
    match (AnsCoder::from_compressed(words), numbers.split_last()) {
        (Ok(made), _) => {
            *coder = made;
            DONE
        }
        (Err(found), Some((_, rest))) if same(&found, rest) => "none",
        _ => OTHER,
    }
}

/// Replaces the coder by a coder that imports the words `numbers` in binary form.
///
/// Returns the answer, a word of a script ([`crate::scripts::answers`]).
fn import_binary<Word, State>(
    alloc: Global,
    coder: &mut AnsCoder<Word, State>,
    numbers: &[u128],
) -> &'static str
where
    Word: WordOf<State> + Number,
    State: BitArray,
    requires { IsSizes Word.BITS State.BITS }
{
    let Ok(words) = words_of::<Word>(alloc, numbers) else {
        return MEMORY;
    };
    match AnsCoder::from_binary(words) {
        Ok(made) => {
            *coder = made;
            DONE
        }
        Err(_) => OTHER,
    }
}

/// Returns the coder, and leaves a new coder in its place.
fn taken<Word, State>(alloc: Global, coder: &mut AnsCoder<Word, State>) -> AnsCoder<Word, State>
where
    Word: WordOf<State>,
    State: BitArray,
    requires { IsSizes Word.BITS State.BITS }
{
    mem::replace(coder, AnsCoder::new(alloc))
}

/// Takes a coder apart, and puts its parts together again.
fn put_together<Word, State>(coder: AnsCoder<Word, State>) -> AnsCoder<Word, State>
where
    Word: WordOf<State>,
    State: BitArray,
    requires { IsSizes Word.BITS State.BITS }
{
    let (bulk, state) = coder.into_raw_parts();
    AnsCoder::from_raw_parts(bulk, state)
}

/// Replaces the coder by another coder, in the way that `make` names.
///
/// Returns the answer, a word of a script ([`crate::scripts::answers`]).
fn make_by<Word, State>(
    alloc: Global,
    coder: &mut AnsCoder<Word, State>,
    make: Make,
    numbers: &[u128],
) -> &'static str
where
    Word: WordOf<State> + Number,
    State: BitArray + Number,
    requires { IsSizes Word.BITS State.BITS }
{
    match make {
        Make::Of => return make_of(alloc, coder, numbers),
        Make::Import => return import(alloc, coder, numbers),
        Make::ImportBinary => return import_binary(alloc, coder, numbers),
        Make::Clear => coder.clear(),
        Make::Parts => *coder = put_together(taken(alloc, coder)),
    }
    DONE
}

/// Exports a coder's words, and compares them with `numbers`.
///
/// Returns the answer, a word of a script ([`crate::scripts::answers`]).
pub fn export<Word, State, Backend>(
    coder: AnsCoder<Word, State, Backend>,
    numbers: &[u128],
) -> &'static str
where
    Word: WordOf<State> + Number,
    State: BitArray,
    Backend: WriteWords<Word> + Below<Word> + Drop,
    Backend::WriteError: ScriptWord + Drop,
{
    match coder.into_compressed() {
        Ok(all) => answer_if(same(all.below(), numbers)),
        Err(error) => error.told(),
    }
}

/// Exports a coder's words in binary form, and compares them with `numbers`.
///
/// Returns the answer, a word of a script ([`crate::scripts::answers`]).
pub fn export_binary<Word, State, Backend>(
    coder: AnsCoder<Word, State, Backend>,
    numbers: &[u128],
) -> &'static str
where
    Word: WordOf<State> + Number,
    State: BitArray,
    Backend: WriteWords<Word> + Below<Word> + Drop,
    Backend::WriteError: ScriptWord + Drop,
{
    match coder.into_binary() {
        Ok(all) => answer_if(same(all.below(), numbers)),
        Err(Some(error)) => error.told(),
        Err(None) => "no-binary",
    }
}

/// Returns whether the coder's iterator returns exactly the words `numbers`.
fn are_given<Word, State>(coder: &AnsCoder<Word, State>, numbers: &[u128]) -> bool
where
    Word: WordOf<State> + Number,
    State: BitArray,
{
    let mut words = coder.iter_compressed();
    for number in numbers {
        match words.next() {
            Some(word) if word.shown() == *number => {}
            _ => return false,
        }
    }
    words.next().is_none()
}

/// Returns whether `decoder` decodes `symbols`, and is empty afterwards.
fn all_come<Word, State, Backend, Probability, const PRECISION: usize>(
    mut decoder: AnsCoder<Word, State, Backend>,
    table: &WeightTable<Probability, PRECISION>,
    symbols: &[usize],
) -> bool
where
    Word: WordOf<State>,
    State: BitArray,
    Backend: ReadWords<Word, Stack> + Drop,
    Backend::ReadError: ScriptWord + Drop,
    Probability: WordOf<Word>,
{
    take_each(&mut decoder, table, symbols) == DONE && decoder.is_empty()
}

/// Returns whether a decoder that borrows the words decodes `symbols`, and is empty afterwards.
fn lent_gives<Word, State, Probability, const PRECISION: usize>(
    coder: &AnsCoder<Word, State>,
    table: &WeightTable<Probability, PRECISION>,
    lend: Lend,
    symbols: &[usize],
) -> bool
where
    Word: WordOf<State>,
    State: BitArray,
    Probability: WordOf<Word>,
{
    match lend {
        Lend::LentByTrait => all_come(AsDecoder::<PRECISION>::as_decoder(coder), table, symbols),
        Lend::Made => {
            let made = AnsCoder::<Word, State, Cursor<Word, &[Word]>>::from(coder);
            all_come(made, table, symbols)
        }
        _ => all_come(coder.as_decoder(), table, symbols),
    }
}

/// Turns a coder into a decoder with `IntoDecoder`. Returns whether it decodes `symbols`, and is empty afterwards.
fn owned_gives<Word, State, Probability, const PRECISION: usize>(
    coder: AnsCoder<Word, State>,
    table: &WeightTable<Probability, PRECISION>,
    symbols: &[usize],
) -> bool
where
    Word: WordOf<State>,
    State: BitArray,
    Probability: WordOf<Word>,
{
    match IntoDecoder::<PRECISION>::into_decoder(coder) {
        Ok(owned) => all_come(owned, table, symbols),
        Err(never) => match never {},
    }
}

/// Gets a decoder in the way that `lend` names. Returns whether it decodes `symbols`, and is empty afterwards.
fn lend_by<Word, State, Probability, const PRECISION: usize>(
    alloc: Global,
    coder: &mut AnsCoder<Word, State>,
    table: &WeightTable<Probability, PRECISION>,
    lend: Lend,
    symbols: &[usize],
) -> bool
where
    Word: WordOf<State>,
    State: BitArray,
    Probability: WordOf<Word>,
    requires { IsSizes Word.BITS State.BITS }
{
    match lend {
        Lend::Owned => all_come(taken(alloc, coder).into_decoder(), table, symbols),
        Lend::OwnedByTrait => owned_gives(taken(alloc, coder), table, symbols),
        _ => lent_gives(coder, table, lend, symbols),
    }
}

/// Runs an act with a coder over a vector.
///
/// Returns the answer, a word of a script ([`crate::scripts::answers`]).
pub fn own_by<Word, State, Probability, const PRECISION: usize>(
    alloc: Global,
    coder: &mut AnsCoder<Word, State>,
    table: &WeightTable<Probability, PRECISION>,
    act: &Act<'_>,
) -> &'static str
where
    Word: WordOf<State> + Number,
    State: BitArray + Number,
    Probability: WordOf<Word>,
    requires { IsSizes Word.BITS State.BITS }
{
    match find(VERBS, act.verb) {
        None => act_by(alloc, coder, table, act),
        Some(Owned::Make(make)) => make_by(alloc, coder, make, act.numbers),
        Some(Owned::Lend(lend)) => answer_if(lend_by(alloc, coder, table, lend, act.symbols)),
        Some(Owned::Export) => export(taken(alloc, coder), act.numbers),
        Some(Owned::ExportBinary) => export_binary(taken(alloc, coder), act.numbers),
        Some(Owned::Given) => answer_if(are_given(coder, act.numbers)),
        Some(Owned::At) => answer_if(stands_at(coder, act)),
        Some(Owned::Seek) => seek(coder, act),
    }
}

/// Runs a script with a coder over a vector, up to the first act with an unexpected answer.
///
/// Returns the text of this act, or `None` if every act has the expected answer.
pub fn follow_owning<Word, State, Probability, const PRECISION: usize>(
    alloc: Global,
    coder: &mut AnsCoder<Word, State>,
    table: &WeightTable<Probability, PRECISION>,
    script: &Script,
) -> Option<&'static str>
where
    Word: WordOf<State> + Number,
    State: BitArray + Number,
    Probability: WordOf<Word>,
    requires { IsSizes Word.BITS State.BITS }
{
    for at in 0..script.len() {
        let act = script.act(at);
        if own_by(alloc, coder, table, &act) != act.answer {
            return Some(act.text);
        }
    }
    None
}
