//! One step of the stack coder.
//!
//! A decode pops the entry of its table that holds the head's quantile. An encode pushes the entry of its symbol.

ghost use Rattle.std.specs.Prelude.{◌≡◌, ℕ};
ghost use Rattle.constriction_base.specs.Steps.{Step, IsSizes, IsStep};
ghost use Rattle.constriction_stack.specs.Ans.{AnsState, IsNormalized, IsNext, pop, IsPush};
ghost use Rattle.constriction_base.specs.Models.{Model, IsModel, Knows};
ghost use Rattle.constriction_stack.specs.Symbols.{Encodes, Decodes};
ghost use Rattle.constriction_laws.specs.Outcomes.{AreOne};
ghost use Rattle.constriction_laws.specs.stack.Lists.{AfterDecode, HasTable};

/// An entry of a table can be pushed onto each valid state, in exactly one way.
pub fn one_push()
    ensures exists { (w s : ℕ) (e : Step) (state : AnsState) → IsSizes w s → IsStep w e →
        IsNormalized w s state → (new : AnsState) × IsPush w s e state new }
    ensures unique { (w s : ℕ) (e : Step) (state new other : AnsState) → IsSizes w s → IsStep w e →
        IsPush w s e state new → IsPush w s e state other → new ≡ other }
{}

/// A pop undoes a push, and a push undoes a pop from a valid state.
pub fn pushes_and_pops_undo()
    ensures pop_undoes { (w s : ℕ) (e : Step) (old new : AnsState) →
        IsPush w s e old new → IsNext e new × (pop w s e new ≡ old) }
    ensures push_undoes { (w s : ℕ) (e : Step) (old new : AnsState) → IsSizes w s → IsStep w e →
        IsNormalized w s old → IsNext e old → IsPush w s e (pop w s e old) new → new ≡ old }
    ensures valid { (w s : ℕ) (e : Step) (old : AnsState) → IsSizes w s → IsStep w e →
        IsNormalized w s old → IsNext e old → IsNormalized w s (pop w s e old) }
{}

/// A symbol with an entry in its table can be encoded onto each valid state, in exactly one way.
pub fn one_encode<Symbol>()
    ensures exists { (w s : ℕ) (model : Model Symbol) (symbol : Symbol) (old : AnsState) →
        IsSizes w s → IsModel w model → Knows model symbol → IsNormalized w s old →
        (new : AnsState) × Encodes w s model symbol old new }
    ensures unique { (w s : ℕ) (model : Model Symbol) (symbol : Symbol) (old new other : AnsState) → IsSizes w s →
        IsModel w model → AreOne (Encodes w s model symbol old) new other }
{}

/// Decoding from a state, valid or not, returns exactly one symbol and leads to exactly one state.
pub fn one_decode<Symbol>()
    ensures exists { (w s : ℕ) (model : Model Symbol) (old : AnsState) → HasTable model → (symbol : Symbol) × (new :
        AnsState) × Decodes w s model symbol old new }
    ensures unique { (w s : ℕ) (model : Model Symbol) (symbol other : Symbol) (old new last : AnsState) → HasTable model
        → Decodes w s model symbol old new → Decodes w s model other old last → (symbol ≡ other) × (new ≡ last) }
{}

/// A decode with the same table undoes an encode: it returns the symbol, and leads to the state before the encode.
pub fn decode_undoes_encode<Symbol>()
    ensures back { (w s : ℕ) (model : Model Symbol) (symbol : Symbol) (old new : AnsState) →
        Encodes w s model symbol old new → Decodes w s model symbol new old }
    ensures only { (w s : ℕ) (model : Model Symbol) (symbol again : Symbol) (old new last : AnsState) → HasTable model →
        Encodes w s model symbol old new → Decodes w s model again new last → (again ≡ symbol) × (last ≡ old) }
    ensures valid { (w s : ℕ) (model : Model Symbol) (symbol : Symbol) (old new : AnsState) →
        Encodes w s model symbol old new → IsNormalized w s new }
{}

/// An encode of the same symbol with the same table undoes a decode from a valid state.
pub fn encode_undoes_decode<Symbol>()
    ensures back { (w s : ℕ) (model : Model Symbol) (symbol : Symbol) (old new : AnsState) →
        IsNormalized w s old → Decodes w s model symbol old new → Encodes w s model symbol new old }
    ensures only { (w s : ℕ) (model : Model Symbol) (symbol : Symbol) (old new last : AnsState) → AfterDecode w s model
        symbol old new (Encodes w s model symbol new last → last ≡ old) }
    ensures valid { (w s : ℕ) (model : Model Symbol) (symbol : Symbol) (old new : AnsState) → AfterDecode w s model
        symbol old new (IsNormalized w s new) }
{}
