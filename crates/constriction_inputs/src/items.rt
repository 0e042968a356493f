//! Items: what a call encodes. An item is a symbol with its model, or an interval of quantiles.
//!
//! A caller passes [`Symbols`](crate::symbols::Symbols) or [`Intervals`](crate::intervals::Intervals). The call makes a
//! list of the caller's arguments ([`Items::list`]), and takes one step of its coder with each interval of the list.

ghost use Rattle.std.specs.Prelude.{◌≡◌, ◌↔◌, ◌<◌, ◌≤◌, ℕ, List, length, IfNone, IfSome, IsTrue};
ghost use Rattle.constriction_base.specs.Models.{AreKnown, Item, Knows};
ghost use Rattle.constriction_inputs.specs.Coded.{AreFit, AsksFit, Coded, items};
ghost use Rattle.constriction_inputs.specs.Refusals.{Otherwise, NoRefusal};
ghost use Rattle.constriction_inputs.specs.Items.{HasAt, HasInterval};
ghost use Rattle.constriction_words.specs.Reciprocals.{IsReciprocalOf};

use crate::refusal::Refusal;
use constriction_words::{BitArray, Reciprocal};
use std::alloc::Global;

/// A list of items that is ready to encode.
///
/// The implementor defines the list of the items (`list_items`). It proves that `interval` returns the interval of the
/// item at an index.
pub trait ItemList<P: BitArray, const PRECISION: usize>: Drop {
    /// Whether an encoder takes less time if it finds the interval of an item before it takes the step of another.
    const LOOKS_AHEAD: bool;

    // The items, in order.
    ghost list_items: { Self → List (Item ℕ) };

    /// Returns the number of items.
    fn count(&self) -> usize
        ensures { result ≡ length (list_items self.now) };

    /// Returns the start and the length of the interval of the item at index `place`, in quantiles.
    ///
    /// The third value is the reciprocal of the length, if the list stores it. Returns `None` if the item's model has
    /// no entry for its symbol. The caller proves that the list has the index. The call needs no memory.
    fn interval(
        &mut self,
        place: usize,
    ) -> Option<(P, <P as BitArray>::NonZero, Option<Reciprocal>)>
        requires { place < length (list_items self.now) }
        ensures found { IfSome result (λ found. HasAt (list_items self.old) place
            (HasInterval PRECISION P.BITS (P.number found.0) (P.nonzero_number found.1))) }
        ensures reciprocal { IfSome result (λ found. IfSome found.2 (λ r.
            IsReciprocalOf r (P.nonzero_number found.1))) }
        ensures impossible { IfNone result (HasAt (list_items self.old) place
            (λ item. Knows item.model item.symbol → ⊥)) }
        ensures items { list_items self.new ≡ list_items self.old };
}

/// A caller's arguments that describe a list of items to encode.
///
/// The implementor's definition `coded` states which arguments are valid, and which items valid arguments describe. The
/// implementor proves three facts:
///
/// - `check` returns an error if and only if the arguments aren't valid.
/// - `know` returns whether the model of each item has an entry for the item's symbol.
/// - `list` returns the items.
pub trait Items<P: BitArray, const PRECISION: usize> {
    /// The type of the list that is ready to encode.
    type List: ItemList<P, PRECISION>;

    // The items, and which arguments are valid.
    ghost coded: { Self → Coded };

    // The number of items.
    ghost item_count: { Self → ℕ };

    /// Returns the number of items. The call needs no memory.
    fn count(&self) -> usize
        ensures { result ≡ item_count self.now };

    /// Checks that the caller's arguments describe items. The call needs no memory.
    ///
    /// # Errors
    ///
    /// The call checks for `WrongLength`, `WrongInterval` and `WrongWeights`, in this order. [`Refusal`] lists the
    /// cases of each error. An implementor's `coded` states which of these cases can arise. The call fails in no other
    /// case.
    fn check(&self) -> Result<(), Refusal>
        requires { (1 ≤ PRECISION) × (PRECISION ≤ P.BITS) }
        ensures { AsksFit PRECISION (coded self.now) (Otherwise NoRefusal) result };

    /// Returns whether each item's model has an entry for its symbol. The call needs no memory.
    ///
    /// The caller proves that `check` would succeed.
    fn know(&self) -> bool
        requires { AreFit PRECISION (coded self.now) }
        ensures { IsTrue result ↔ AreKnown (items PRECISION (coded self.now)) };

    /// Returns the list of the items, or `None` if there is no memory for it.
    ///
    /// `divides` is true if the caller's coder divides by the lengths of intervals. Then the list may keep their
    /// reciprocals. The caller proves that `check` would succeed.
    fn list(&self, alloc: Global, divides: bool) -> Option<Self::List>
        requires precision { (1 ≤ PRECISION) × (PRECISION ≤ P.BITS) }
        requires fit { AreFit PRECISION (coded self.now) }
        ensures items { IfSome result (λ list. Self.List.list_items list ≡ items PRECISION (coded self.now)) }
        ensures count { IfSome result (λ list. length (Self.List.list_items list) ≡ item_count self.now) };
}
