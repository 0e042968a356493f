//! The two orders in which words are read.

/// A reading order of a backend: [`Stack`] or [`Queue`].
///
/// An implementor proves nothing.
pub trait Semantics {}

/// The order "last in, first out": the word written last is read first.
///
/// # Examples
///
/// ```
/// let mut words = Cursor::new_at_write_end([7u32, 9].as_slice());
/// ReadWords::<u32, Stack>::read(&mut words) // Ok(Some(9))
/// ```
#[derive(Clone, Copy, Debug, Default, PartialEq, Eq)]
pub struct Stack;

/// The order "first in, first out": the word written first is read first.
///
/// # Examples
///
/// ```
/// let mut words = Cursor::new_at_write_beginning([7u32, 9].as_slice());
/// ReadWords::<u32, Queue>::read(&mut words) // Ok(Some(7))
/// ```
#[derive(Clone, Copy, Debug, Default, PartialEq, Eq)]
pub struct Queue;

impl Semantics for Stack {}

impl Semantics for Queue {}
