//! The drop of a guard restores the encoder.
//!
//! The clause `shows` of `RangeEncoder::get_compressed` says that a guard lends the words of the export. The premises
//! of the law here are the clauses `heads` and `back` of that call. A guard has an encoder of its own. The clause
//! `heads` says that the guard's encoder has the interval and the pending words of the original encoder. The clause
//! `back` says that the guard's encoder holds the words of the seal above the words of the original encoder.

ghost use Rattle.std.specs.Prelude.{◌≡◌, ℕ};
ghost use Rattle.constriction_queue.specs.Encoder.{Encoder, run_by, sealed_by};
ghost use Rattle.constriction_laws.specs.queue.Lists.{AfterGuard};

/// Removing the words that a guard wrote restores the encoder's interval and the words that the encoder would export.
pub fn shown_words_go<Backend>()
    ensures run { (w s count : ℕ) (encoder shown left : Encoder Backend) → AfterGuard count encoder shown left (run_by w
        s left ≡ run_by w s encoder) }
    ensures words { (w s count : ℕ) (encoder shown left : Encoder Backend) → AfterGuard count encoder shown left
        (sealed_by w s left ≡ sealed_by w s encoder) }
{}
