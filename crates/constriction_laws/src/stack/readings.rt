//! Laws of stack coders over backends that don't behave as a fixed list of words (`is_list`), such as iterators.
//!
//! Suppose that a function lists the words of each state of a backend, and that reads return these words one by one.
//! Then importing words from the backend equals importing the list, and decoding from the backend equals decoding from
//! the list.

ghost use Rattle.std.specs.Prelude.{ℕ, List};
ghost use Rattle.constriction_base.specs.Iterators.{FusedRead};
ghost use Rattle.constriction_base.specs.Steps.{IsSizes};
ghost use Rattle.constriction_stack.specs.Ans.{AnsValue};
ghost use Rattle.constriction_laws.specs.Readings.{ListsWords, ListsItems, words_left};
ghost use Rattle.constriction_laws.specs.stack.Readings.{state_by_words, ComeBackByReads, DecodesBy, DecodesAllBy};
ghost use Rattle.constriction_base.specs.Models.{Model, Item, AreModels};
ghost use Rattle.constriction_stack.specs.Symbols.{Decodes, DecodesAll};

use crate::stack::lists::symbols_come_back;
use crate::stack::words::{imports_are_words, reads_are_words};
use constriction_base::backends::{ReadWords, Stack};
use constriction_words::BitArray;

/// The words of a backend over an iterator are the words that the iterator will return.
///
/// The function `words` lists the words that an iterator will return. The function `words_left words` lists the words
/// of a backend over that iterator. If the iterator has ended, this list is empty.
pub fn items_are_words<Word, ReadError, Iter: Iterator<Item = Result<Word, ReadError>>>()
    ensures { (words : Iter → List Word) → ListsItems Iter.next_gives words →
        ListsWords (FusedRead Iter.next_gives) (words_left words) }
{}

/// If `words` lists the words of a backend, decoding from the backend equals decoding from that list.
///
/// Both decodes return the same symbols, and leave the same head and words.
pub fn decodes_are_words<Symbol, Word: BitArray, Backend: ReadWords<Word, Stack>>()
    ensures one { (words : Backend → List Word) (w s : ℕ) (model : Model Symbol) (symbol : Symbol)
        (old new : AnsValue Backend) → ListsWords Backend.reads words →
        DecodesBy Word.number Backend.reads w s model symbol old new →
        Decodes w s model symbol (state_by_words Word.number words old) (state_by_words Word.number words new) }
    ensures all { (words : Backend → List Word) (w s : ℕ) (items : List (Item Symbol)) (old new : AnsValue Backend) →
        ListsWords Backend.reads words →
        DecodesAllBy Word.number Backend.reads w s items old new →
        DecodesAll w s items (state_by_words Word.number words old) (state_by_words Word.number words new) }
{
    reads_are_words::<Word, Backend>()
}

/// Decoding exported words from a backend returns the symbols that were encoded onto an empty coder.
///
/// Encode any number of symbols, each with its own table, and export the words. Import these words from a backend, such
/// as a backend over an iterator. Decode with the same tables in reverse order. The decoded symbols are the encoded
/// symbols, last symbol first. No word is left, and the coder is empty.
pub fn symbols_come_back_by_reads<Symbol, Word: BitArray, Backend: ReadWords<Word, Stack>>()
    ensures { (words : Backend → List Word) (w s : ℕ) (items others : List (Item Symbol)) (given : Backend) (last :
        AnsValue Backend) → IsSizes w s → AreModels w items → ComeBackByReads Word.number Backend.reads words w s items
        others given last }
{
    symbols_come_back::<Symbol>();
    imports_are_words::<Word, Backend>();
    decodes_are_words::<Symbol, Word, Backend>()
}
