//! Functions that call the stack coder, and a small program.
//!
//! The contracts of these functions say which symbols are decoded. `docs/CALLING.md` explains the functions.

ghost use Rattle.std.specs.Prelude.{◌≡◌, ◌<◌, ◌%◌, ◌^◌, ℕ, List, length, map, reverse, IfOk, IfErr, IfSome};
ghost use Rattle.constriction.specs.Models.{pairs_of};
ghost use Rattle.constriction.specs.Outcomes.{HasImpossibleItem, UnlessImpossible, UnlessInvalid};
ghost use Rattle.constriction.specs.Readings.{BeginsHigh};
ghost use Rattle.constriction.specs.Tables.{entries};
ghost use Rattle.constriction.specs.stack.Ans.{AnsState, exported};
ghost use Rattle.constriction.specs.stack.Positions.{Grows, position_of, sought};
ghost use Rattle.constriction.specs.stack.Symbols.{DecodesAll, EncodesAll};
ghost use Rattle.constriction_examples.specs.Packing.{ArePacked, AreUnpacked, reading_order};

use anyhow::{Result, bail};
use constriction::Natural;
use constriction::backends::Cursor;
use constriction::laws::errors::RoundTripError;
use constriction::laws::stack::round_trips::pairs::{pairs_from_words, words_with_pairs};
use constriction::laws::stack::round_trips::positions::pairs_at_position;
use constriction::stream::model::WeightTable;
use constriction::stream::stack::DefaultAnsCoder;
use constriction::stream::{Decode, Encode};
use std::alloc::Global;

/// Encodes symbols, each with its own table, and returns the words. [`unpack`] decodes the words.
///
/// The caller proves that there are as many tables as symbols.
///
/// # Errors
///
/// - `ImpossibleSymbol`: a table has no entry for its symbol.
/// - `Refused`: there was no memory.
pub fn pack(
    alloc: Global,
    symbols: &[usize],
    tables: &[WeightTable<u32, 24>],
) -> Result<Vec<u32>, RoundTripError>
    requires { length symbols.now ≡ length tables.now }
    ensures packed { IfOk result (λ words. ArePacked (pairs_of 24 entries symbols.now tables.now) words.items) }
    ensures err { IfErr result (UnlessImpossible (HasImpossibleItem (pairs_of 24 entries symbols.now tables.now))) }
{
    words_with_pairs(DefaultAnsCoder::new(alloc), symbols, tables)
}

/// Decodes one symbol for each table of `tables` from `words`.
///
/// If [`pack`] returned the words for these tables, the call returns the symbols that were passed to `pack`.
///
/// # Errors
///
/// - `InvalidData`: the last word is 0, so no coder exported the words.
/// - `Refused`: there was no memory.
pub fn unpack(
    alloc: Global,
    words: &[u32],
    tables: &[WeightTable<u32, 24>],
) -> Result<Vec<usize>, RoundTripError>
    ensures count { IfOk result (λ again. length again.items ≡ length tables.now) }
    ensures read { IfOk result (λ again. AreUnpacked (pairs_of 24 entries again.items tables.now) words.now) }
    ensures back { (symbols : List ℕ) → ArePacked (pairs_of 24 entries symbols tables.now) words.now →
        length symbols ≡ length tables.now → IfOk result (λ again. again.items ≡ symbols) }
    ensures err { IfErr result (UnlessInvalid (BeginsHigh (reading_order words.now) → ⊥)) }
{
    let (again, _) = pairs_from_words::<u32, u64, Cursor<u32, &[u32]>, _, 24>(
        alloc,
        Cursor::new_at_write_end(words),
        tables,
    )?;
    Ok(again)
}

/// Returns a copy of the words that a coder would export, with the top word last. The coder's state is unchanged.
///
/// Returns `None` if there is no memory.
pub fn words_so_far(alloc: Global, coder: &mut DefaultAnsCoder) -> Option<Vec<u32>>
    ensures words { IfSome result (λ words.
        map ⟦<u32 as Natural>⟧.number (reverse words.items) ≡ exported 32 coder.old.state) }
    ensures kept { coder.new.state ≡ coder.old.state }
{
    let Ok(guard) = coder.get_compressed() else {
        return None;
    };
    guard.backend().as_slice().to_vec(alloc).ok()
}

/// Decodes one symbol for each table of `tables`, from a position in a coder's words.
///
/// `position` consists of the number of words below the head, and the head. Suppose that one symbol was encoded with
/// each table, from last to first, and that the position was recorded right afterwards. If the coder still has all
/// words that were below its head at the recording, the call returns these symbols in the order of `tables`. The coder
/// may have encoded any symbols after the recording.
///
/// # Errors
///
/// - `InvalidData`: the coder holds fewer words below its head than the position requires.
/// - `Refused`: there was no memory.
pub fn before_a_position(
    alloc: Global,
    coder: &DefaultAnsCoder,
    position: (usize, u64),
    tables: &[WeightTable<u32, 24>],
) -> Result<Vec<usize>, RoundTripError>
    ensures count { IfOk result (λ again. length again.items ≡ length tables.now) }
    ensures read { IfOk result (λ again. (last : AnsState) × DecodesAll 32 64
        (pairs_of 24 entries again.items tables.now)
        (sought (record { held = position.0; head = position.1 % 2 ^ 64 }) coder.now.state) last) }
    ensures back { (symbols : List ℕ) (old there : AnsState) →
        EncodesAll 32 64 (reverse (pairs_of 24 entries symbols tables.now)) old there →
        record { held = position.0; head = position.1 % 2 ^ 64 } ≡ position_of there → Grows there coder.now.state →
        length symbols ≡ length tables.now → IfOk result (λ again. again.items ≡ symbols) }
    ensures err { IfErr result (UnlessInvalid (length coder.now.state.words < position.0)) }
{
    pairs_at_position(alloc, coder, position, tables)
}

/// Encodes three symbols, decodes them, and prints the symbols decoded.
pub fn run(rt: &impl Print, alloc: Global) -> Result<()> {
    // Symbols 0, 1 and 2. Symbol 2 is by far the likeliest.
    let table = WeightTable::<u32, 24>::new(alloc, &[3, 2, 16777211])?;

    // The symbol encoded last is decoded first.
    let mut coder = DefaultAnsCoder::new(alloc);
    coder.encode_symbol(&1, &table)?;
    coder.encode_iid_symbols([0usize, 2].as_slice(), &table)?;
    let words = coder.into_compressed()?; // a `Vec<u32>`

    let Ok(mut coder) = DefaultAnsCoder::from_compressed(words) else {
        bail!("no coder exports words that end with a zero word");
    };
    for _ in 0..3 {
        let symbol = coder.decode_symbol(&table)?;
        println!(rt; "{symbol}")?; // 2, 0, 1
    }
    Ok(())
}
