//! Isolation of the decode calls: replacing the models of some symbols doesn't change the other symbols.
//!
//! The law [`symbols_are_isolated`] also covers decodes with changes of the precision between them.

ghost use Rattle.std.specs.Prelude.{IfErr, IfOk};
ghost use Rattle.constriction_laws.specs.Outcomes.{IfRefused};
ghost use Rattle.constriction_laws.specs.chain.Lists.{FromSameBits};
ghost use Rattle.constriction_laws.specs.chain.Pairs.{AreIsolatedBy, AreOneEach, DecodesByReads, EndsInTwo};
ghost use Rattle.constriction_laws.specs.chain.Pairs.{RefusedInTwo, ChainDecodesPairs};

use crate::chain::isolation::symbols_are_isolated;
use crate::chain::round_trips::coding::decode_pairs;
use crate::errors::RoundTripError;
use constriction_base::backends::{Holds, ReadWords, Stack, WriteWords};
use constriction_base::model::{DecoderModel, EntropyModel};
use constriction_chain::ChainCoder;
use constriction_stream::decoding::Decode;
use constriction_words::{BitArray, WordOf};
use std::alloc::Global;

/// Decodes symbols from two coders, each with its own list of models.
///
/// Calls `decode_symbols` on `coder` with `models`, and on `same` with `others`. Returns the symbols of `coder` and the
/// symbols of `same`, in this order. The two lists may have models of different types.
///
/// Suppose that the backend `C` behaves as a fixed list of words (`is_list`), and that both coders have the same
/// compressed head and compressed words. If the `k`-th models of both lists have equal tables, the `k`-th symbols are
/// equal, whatever the other tables are.
///
/// # Errors
///
/// If a decode of `coder` fails, `same` is unchanged. If a decode of `same` fails, `coder` has decoded all its symbols.
///
/// - `OutOfData(count)`: after `count` symbols one of the coders needed a compressed word, and its backend returned
///   none.
/// - `Refused`: a read or a write failed, or there was no memory.
pub fn decode_by_two<
    Word: WordOf<State>,
    State: BitArray,
    C: ReadWords<Word, Stack>,
    R: WriteWords<Word>,
    M: DecoderModel<PRECISION>,
    L: DecoderModel<PRECISION, Symbol = M::Symbol>,
    const PRECISION: usize,
>(
    alloc: Global,
    coder: &mut ChainCoder<Word, State, C, R, PRECISION>,
    models: &[M],
    same: &mut ChainCoder<Word, State, C, R, PRECISION>,
    others: &[L],
) -> Result<(Vec<M::Symbol>, Vec<M::Symbol>), RoundTripError>
where
    M::Probability: WordOf<Word>,
    L::Probability: WordOf<Word>,
    M::Symbol: Drop,
    C::ReadError: Drop,
    R::WriteError: Drop,
    ensures count { IfOk result (AreOneEach models.now others.now) }
    ensures first { C.is_list → IfOk result (λ both. ChainDecodesPairs Word.BITS State.BITS PRECISION M.table
        both.0.items
        models.now coder.old coder.new) }
    ensures second { C.is_list → IfOk result (λ both. ChainDecodesPairs Word.BITS State.BITS PRECISION L.table
        both.1.items
        others.now same.old same.new) }
    ensures reads { IfOk result (λ both. DecodesByReads Word.number C.Holds C.ReadWords.own R.Holds R.WriteWords.own
        Word.BITS State.BITS PRECISION M.table both.0.items models.now coder.old coder.new
        × DecodesByReads Word.number C.Holds C.ReadWords.own R.Holds R.WriteWords.own
        Word.BITS State.BITS PRECISION L.table both.1.items others.now same.old same.new) }
    ensures isolated { C.is_list → FromSameBits coder.old.state same.old.state (IfOk result (AreIsolatedBy PRECISION
        M.table models.now L.table others.now)) }
    ensures err { IfErr result (EndsInTwo C.is_list Word.BITS State.BITS PRECISION M.table models.now coder.old
        coder.new L.table others.now same.old same.new) }
    ensures refused { IfErr result (IfRefused (RefusedInTwo Word.number C.Holds C.ReadWords.own R.Holds R.WriteWords.own
        Word.BITS State.BITS PRECISION M.table models.now coder.old coder.new L.table others.now same.old same.new)) }
{
    let one = decode_pairs(alloc, coder, models)?;
    let two = decode_pairs(alloc, same, others)?;
    symbols_are_isolated::<M::Symbol>();
    Ok((one, two))
}
