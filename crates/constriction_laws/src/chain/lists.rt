//! Lists of symbols on the chain coder: encodes undo decodes, and decodes undo encodes.
//!
//! Each symbol has its own table. All tables have the coder's precision. The laws follow from the laws of one step by
//! [`lists_undo`].

ghost use Rattle.std.specs.Prelude.{◌≡◌, ℕ, List, reverse, ⊤};
ghost use Rattle.constriction_base.specs.Models.{Item};
ghost use Rattle.constriction_chain.specs.Chain.{ChainState, IsChain};
ghost use Rattle.constriction_chain.specs.Symbols.{ChainDecodesOne, ChainDecodesAll, ChainEncodesOne, ChainEncodesAll};
ghost use Rattle.constriction_chain.specs.Symbols.{IsModelAt};
ghost use Rattle.constriction_laws.specs.chain.Lists.{AfterChainDecodes};
ghost use Rattle.constriction_laws.specs.chain.Undone.{Sizes, decode_back, encode_back, decoded_at};

use crate::lists::{StepsUndo, lists_undo};
use std::marker::PhantomData;

/// Implements [`StepsUndo`] for the chain coder: each step is an encode of a symbol, and the inverse step is a decode.
///
/// [`decodes_undo_encodes`] passes this type to [`lists_undo`].
pub struct Encoding<Symbol> {
    symbols: PhantomData<Symbol>,
}

impl<Symbol> StepsUndo for Encoding<Symbol> {
    ghost setting = { ℕ × ℕ };

    ghost step = { Item Symbol };

    ghost state = { ChainState };

    ghost allowed = { λ sizes item. ⊤ };

    ghost valid = { λ sizes state. ⊤ };

    ghost does = { λ sizes item old new. ChainEncodesOne sizes.0 sizes.1 item.model item.symbol old new };

    ghost undoes = { λ sizes item old new. ChainDecodesOne sizes.0 sizes.1 item.model item.symbol old new };

    ghost one_undone = { λ sizes item old new allowed valid does.
        (decode_back sizes.0 sizes.1 item.model item.symbol old new does, tt) };
}

/// Implements [`StepsUndo`] for the chain coder: each step is a decode of a symbol, and the inverse step is an encode.
///
/// [`encodes_undo_decodes`] passes this type to [`lists_undo`].
pub struct Decoding<Symbol> {
    symbols: PhantomData<Symbol>,
}

impl<Symbol> StepsUndo for Decoding<Symbol> {
    ghost setting = { Sizes };

    ghost step = { Item Symbol };

    ghost state = { ChainState };

    ghost allowed = { λ sizes item. IsModelAt sizes.P item.model };

    ghost valid = { λ sizes state. IsChain sizes.w sizes.s sizes.P state };

    ghost does = { λ sizes item old new. ChainDecodesOne sizes.w sizes.s item.model item.symbol old new };

    ghost undoes = { λ sizes item old new. ChainEncodesOne sizes.w sizes.s item.model item.symbol old new };

    ghost one_undone = { λ sizes item old new allowed valid does. (
      encode_back sizes.w sizes.s sizes.P item.model item.symbol old new sizes.are allowed valid does,
      decoded_at sizes.w sizes.s sizes.P item.model item.symbol old new sizes.are allowed valid does,
    ) };
}

/// Decoding symbols in reverse order, with the tables of their encodes, undoes the encodes.
///
/// The decodes return the same symbols, last symbol first, and lead to the state before the encodes.
pub fn decodes_undo_encodes<Symbol>()
    ensures { (w s : ℕ) (items : List (Item Symbol)) (old new : ChainState) →
        ChainEncodesAll w s items old new → ChainDecodesAll w s (reverse items) new old }
{
    lists_undo::<Encoding<Symbol>>()
}

/// Encoding decoded symbols from last to first, with the tables of their decodes, undoes the decodes.
///
/// The encodes lead to exactly one state: the state before the decodes.
pub fn encodes_undo_decodes<Symbol>()
    ensures back { (w s P : ℕ) (items : List (Item Symbol)) (old new : ChainState) → AfterChainDecodes w s P items old
        new
        (ChainEncodesAll w s (reverse items) new old) }
    ensures only { (w s P : ℕ) (items : List (Item Symbol)) (old new last : ChainState) → AfterChainDecodes w s P items
        old
        new (ChainEncodesAll w s (reverse items) new last → last ≡ old) }
    ensures valid { (w s P : ℕ) (items : List (Item Symbol)) (old new : ChainState) → AfterChainDecodes w s P items old
        new
        (IsChain w s P new) }
{
    lists_undo::<Decoding<Symbol>>()
}
