//! Symbols of two models in one stream. A flag symbol of the first model ends the first model's symbols.

ghost use Rattle.std.specs.Prelude.{◌≡◌, ℕ, List, length, IfOk};
ghost use Rattle.constriction_base.specs.Models.{Model, IsModel};
ghost use Rattle.constriction_base.specs.Steps.{IsSizes, AreWords};
ghost use Rattle.constriction_queue.specs.Flagged.{flagged};
ghost use Rattle.constriction_laws.specs.Outcomes.{model_at};
ghost use Rattle.constriction_laws.specs.queue.Flagging.{NoListFlagged, ReadsFlagged, StepsFlagged};
ghost use Rattle.constriction_laws.specs.queue.Lists.{AreFoundAlike, AreReadBefore};
ghost use Rattle.constriction_queue.specs.Range.{Run};

use crate::errors::Stopped;
use crate::queue::following::symbols_come_back_whatever_follows;
use constriction_base::backends::{Queue, ReadWords};
use constriction_base::errors::CoderError;
use constriction_base::model::{DecoderModel, EntropyModel};
use constriction_queue::{DecoderFrontendError, FlagSwitch};
use constriction_words::{BitArray, WordOf};
use std::alloc::Global;

/// Words decode to at most one list of a given number of symbols, if the model changes after a flag.
///
/// The decoder starts from the interval `old`. It uses the model `first` up to and including the flag, and then
/// `second`. The words also determine the interval after the list. The list need not contain the flag.
pub fn one_list_of_flagged_symbols()
    ensures { (w s flag : ℕ) (first second : Model ℕ) (words symbols others : List ℕ) (old new last : Run) → IsModel w
        first → IsModel w second → length others ≡ length symbols → AreFoundAlike w s words (flagged flag first second)
        symbols others old new last }
{}

/// Decoding words with a self-delimiting seal returns the encoded symbols, if the model changes after a flag.
///
/// Any words may follow the seal. The encoder and the decoder start from the initial interval. Symbols up to and
/// including the flag have the model `first`. All later symbols have the model `second`. The list need not contain the
/// flag.
pub fn flagged_symbols_come_back()
    ensures { (w s flag : ℕ) (first second : Model ℕ) (symbols words rest : List ℕ) (last : Run) → IsSizes w s → IsModel
        w first → IsModel w second → AreWords w rest → AreReadBefore w s (flagged flag first second symbols) last words
        rest }
{
    symbols_come_back_whatever_follows::<usize>()
}

/// Decodes `amt` symbols, with the model `first` up to and including the flag, and then with the model `second`.
///
/// `switch` is a decoder that changes its model after the flag. The call decodes each symbol with `next_symbol`. If
/// `switch` has already decoded the flag, all symbols have the model `second`.
///
/// # Errors
///
/// - `Refused(error)`: `next_symbol` returned this error. Suppose that the backend behaves as a fixed list of words
///   (`is_list`). Then the error is `InvalidData` only if the words don't encode `amt` symbols, starting at the
///   position of `switch`.
/// - `NoMemory`: there was no memory for the symbols.
///
/// After an error, `switch` uses `second` if the flag was among the symbols that `next_symbol` returned. If the
/// backend behaves as a fixed list of words, `switch` is positioned after these symbols.
pub fn decode_flagged<
    Word: WordOf<State>,
    State: BitArray,
    Backend: ReadWords<Word, Queue>,
    M1: DecoderModel<P1, Symbol = usize>,
    M2: DecoderModel<P2, Symbol = usize>,
    const P1: usize,
    const P2: usize,
>(
    alloc: Global,
    switch: &mut FlagSwitch<Word, State, Backend, P1, P2>,
    amt: usize,
    first: &M1,
    second: &M2,
) -> Result<Vec<usize>, Stopped<CoderError<DecoderFrontendError, Backend::ReadError>>>
where
    M1::Probability: WordOf<Word>,
    M2::Probability: WordOf<Word>,
    ensures count { IfOk result (λ again. length again.items ≡ amt) }
    ensures decoded { Backend.is_list → ReadsFlagged Word.BITS State.BITS (model_at P1 (M1.table first.now)) (model_at
        P2 (M2.table second.now)) switch.old result switch.new }
    ensures steps { StepsFlagged Word.number Backend.Holds Backend.ReadWords.own Word.BITS State.BITS (model_at P1
        (M1.table first.now)) (model_at P2 (M2.table second.now)) amt switch.old result switch.new }
    ensures flag { switch.new.flag ≡ switch.old.flag }
    ensures err { Backend.is_list → NoListFlagged Word.BITS State.BITS (model_at P1 (M1.table first.now)) (model_at P2
        (M2.table second.now)) amt switch.old result }
{
    let mut symbols = Vec::new(alloc);
    for _ in 0..amt {
        let symbol = match switch.next_symbol(first, second) {
            Ok(symbol) => symbol,
            Err(error) => return Err(Stopped::Refused(error)),
        };
        let Ok(()) = symbols.push(symbol) else {
            return Err(Stopped::NoMemory);
        };
    }
    Ok(symbols)
}
