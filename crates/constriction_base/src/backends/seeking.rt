//! Positions in a backend or in a coder: recording a position, and seeking to it.
//!
//! Contracts describe seeks by four ghost members of [`Seek`]:
//!
//! - `can_seek` holds for each position to which a seek may succeed.
//! - `seek_fails` holds for each position to which a seek may be refused.
//! - `sought` states how a successful seek may change the value.
//! - `stays` states how a refused seek may change the value.
//!
//! For vectors and cursors, `can_seek` and `seek_fails` exclude each other: a seek succeeds if and only if `can_seek`
//! holds, and a refused seek changes nothing. Some coders read words after a seek of their backend, or have two
//! backends. For these coders, `can_seek` and `seek_fails` may both hold for a position.

ghost use Rattle.std.specs.Prelude.{◌≡◌, ℕ, length, IsOk, OnOk, OnErr};

use crate::backends::reading::Holds;
use crate::backends::semantics::Stack;

/// A backend or a coder that has positions: places in its words that a caller can record or seek to.
pub trait PosSeek {
    /// The type of positions. For vectors and cursors, a position is the number of words before it.
    type Position: Drop;
}

/// A value whose position can be recorded.
///
/// An implementor chooses which positions are current (`stands_at`), and when a caller can call `pos` (`can_tell`). It
/// proves that `pos` returns a position that `stands_at` allows. `stands_at` relates the value to a `Position` and not
/// to an index, because some positions hold more than an index. For example, a coder's position includes its head.
pub trait Pos: PosSeek {
    /// Holds if the position is the current position of the value.
    ghost stands_at: { Self → Self.Position → Type 0 };

    /// Holds if `pos` can return the current position, for example because the count of words fits `Position`.
    ///
    /// For vectors and cursors, `can_tell` always holds.
    ghost can_tell: { Self → Type 0 };

    /// Returns the current position.
    ///
    /// The caller proves that `pos` can return the position (`can_tell`). For vectors and cursors, this always holds.
    fn pos(&self) -> Self::Position
        requires { can_tell self.now }
        ensures { stands_at self.now result };
}

/// A backend whose position is the number of words on its stack.
///
/// An implementor proves two laws, which tie [`Pos`] to [`Holds`]:
///
/// - Every position that `stands_at` allows is the number of words on the stack.
/// - `can_tell` always holds, so `pos` may always be called.
///
/// Therefore the backend has exactly one current position: the number of words on its stack.
pub trait CountsWords<Word>: Pos<Position = usize> + Holds<Word, Stack> {
    // The position is the number of words on the stack.
    ghost count_law: { (b : Self) (place : ℕ) → Self.stands_at b place → place ≡ length (Self.words b) };

    // `pos` may always be called.
    ghost told_law: { (b : Self) → Self.can_tell b };
}

/// A value that can seek to a position.
///
/// An implementor chooses which seeks can succeed (`can_seek`) or be refused (`seek_fails`). It also chooses how a
/// successful seek (`sought`) and a refused seek (`stays`) change the value. It proves that `seek` obeys these choices.
/// Both `can_seek` and `seek_fails` can hold for one position, if a read during `seek` decides whether the seek
/// succeeds. Where only one of them holds, as for vectors and cursors, `seek` succeeds if and only if `can_seek` holds.
pub trait Seek: PosSeek {
    /// Holds if a seek to the position may succeed. A seek to any other position is refused.
    ghost can_seek: { Self → Self.Position → Type 0 };

    /// Holds if a seek to the position may be refused. A seek to any other position succeeds.
    ghost seek_fails: { Self → Self.Position → Type 0 };

    /// Relates the value before a successful seek, the position, and the value after the seek.
    ghost sought: { Self → Self.Position → Self → Type 0 };

    /// Relates the value before a refused seek, the position, and the value after the seek.
    ghost stays: { Self → Self.Position → Self → Type 0 };

    /// Moves to `position`, for example to a position that `pos` returned.
    ///
    /// # Errors
    ///
    /// Returns `Err(())` if the value refuses the seek, for example because a vector has fewer words than `position`.
    /// The implementor states in `seek_fails` which seeks may be refused. A refused seek leaves a vector or a cursor
    /// unchanged.
    fn seek(&mut self, position: Self::Position) -> Result<(), ()>
        ensures variant { IsOk result → can_seek self.old position }
        ensures err { OnErr result (seek_fails self.old position) }
        ensures ok { OnOk result (sought self.old position self.new) }
        ensures kept { OnErr result (stays self.old position self.new) };
}

/// A value that can always seek to its current position.
///
/// An implementor proves two laws, which tie [`Pos`] to [`Seek`]. For each position that `stands_at` allows, `can_seek`
/// holds, and `seek_fails` doesn't hold. Therefore a seek to the current position always succeeds. The laws have their
/// own trait, because a coder may implement [`Pos`] over one backend and [`Seek`] over another backend.
pub trait SeeksBack: Pos + Seek {
    // `can_seek` holds for the current position.
    ghost reach_law: { (b : Self) (position : Self.Position) → Self.stands_at b position → Self.can_seek b position };

    // `seek_fails` doesn't hold for the current position.
    ghost accept_law: { (b : Self) (position : Self.Position) → Self.stands_at b position → Self.seek_fails b position
        → ⊥ };
}
