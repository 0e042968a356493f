//! Converts words and states to and from the numbers of a script.

use constriction_words::WordOf;
use std::alloc::{AllocError, Global};

/// A type whose values a script writes as numbers.
pub trait Number {
    fn of(number: u128) -> Self;

    fn shown(&self) -> u128;
}

impl Number for u8 {
    fn of(number: u128) -> u8 {
        WordOf::<u128>::narrow(number)
    }

    fn shown(&self) -> u128 {
        (*self).widen()
    }
}

impl Number for u16 {
    fn of(number: u128) -> u16 {
        WordOf::<u128>::narrow(number)
    }

    fn shown(&self) -> u128 {
        (*self).widen()
    }
}

impl Number for u32 {
    fn of(number: u128) -> u32 {
        WordOf::<u128>::narrow(number)
    }

    fn shown(&self) -> u128 {
        (*self).widen()
    }
}

impl Number for u64 {
    fn of(number: u128) -> u64 {
        WordOf::<u128>::narrow(number)
    }

    fn shown(&self) -> u128 {
        (*self).widen()
    }
}

impl Number for u128 {
    fn of(number: u128) -> u128 {
        number
    }

    fn shown(&self) -> u128 {
        *self
    }
}

impl Number for usize {
    fn of(number: u128) -> usize {
        usize::try_from(number).unwrap_or(0)
    }

    fn shown(&self) -> u128 {
        *self as u128
    }
}

/// Returns whether `words` are exactly the numbers `numbers`, in this order.
pub fn same<Word: Number>(words: &[Word], numbers: &[u128]) -> bool {
    let mut at: usize = 0;
    for word in words {
        match numbers.get(at) {
            Some(number) if *number == word.shown() => {}
            _ => return false,
        }
        at = at.saturating_add(1);
    }
    at == numbers.len()
}

/// Returns `numbers` as words, in a vector without room for another word.
pub fn words_of<Word: Number + Drop>(
    alloc: Global,
    numbers: &[u128],
) -> Result<Vec<Word>, AllocError> {
    let mut words = Vec::with_capacity(alloc, numbers.len())?;
    for number in numbers {
        words.push(Word::of(*number))?;
    }
    Ok(words)
}
