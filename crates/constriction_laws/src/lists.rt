//! A law for all coders: if each step of a coder can be undone, a list of steps can be undone.

ghost use Rattle.std.specs.Prelude.{List, reverse};
ghost use Rattle.std.specs.List.{AllByRecursion};
ghost use Rattle.constriction_base.specs.Steps.{Trace};

/// Steps of a coder, such as encodes, and the inverse steps that undo them, such as decodes.
///
/// An implementor describes one use of a coder, such as encoding on the stack coder. It proves that an allowed step
/// from a valid state leads to a valid state, and that the inverse step leads back.
///
/// The range coder decodes symbols in the order of encoding, not in reverse order. So the steps of its implementor
/// undo encodes, from the last to the first. The inverse steps are the decodes.
pub trait StepsUndo {
    /// The data that all steps share, such as the sizes of words and states.
    ghost setting: { Type 0 };

    /// The input of a step, such as a symbol and its table.
    ghost step: { Type 0 };

    /// The state that a step changes.
    ghost state: { Type 0 };

    /// Holds for the steps that [`lists_undo`] covers.
    ghost allowed: { setting → step → Type 0 };

    /// Holds for the states that [`lists_undo`] covers.
    ghost valid: { setting → state → Type 0 };

    /// Holds if the step leads from the first state to the second.
    ghost does: { setting → step → state → state → Type 0 };

    /// Holds if the inverse step leads from the first state to the second.
    ghost undoes: { setting → step → state → state → Type 0 };

    /// An allowed step from a valid state leads to a valid state, from which the inverse step leads back.
    ghost one_undone: { (g : setting) (e : step) (old new : state) → allowed g e → valid g old →
        does g e old new →
        undoes g e new old × valid g new };
}

/// A list of allowed steps from a valid state can be undone, from the last step to the first.
///
/// The state after the steps is valid.
pub fn lists_undo<C: StepsUndo>()
    ensures undone { (g : C.setting) (steps : List C.step) (old new : C.state) →
        AllByRecursion (C.allowed g) steps → C.valid g old →
        Trace (C.does g) steps old new → Trace (C.undoes g) (reverse steps) new old }
    ensures valid { (g : C.setting) (steps : List C.step) (old new : C.state) →
        AllByRecursion (C.allowed g) steps → C.valid g old →
        Trace (C.does g) steps old new → C.valid g new }
{}
