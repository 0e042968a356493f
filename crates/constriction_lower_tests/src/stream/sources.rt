//! Iterators that return one reference again and again.

ghost use Rattle.std.specs.Prelude.{◌≡◌, ◌+◌, MatchOption};
ghost use Rattle.std.specs.Iterator.{at_most};

/// An iterator that returns the reference `one` exactly `count` times, and has no size hint.
#[derive(Drop)]
pub struct Ones<'a, T> {
    pub count: usize,
    pub one: &'a T,
}

impl<'a, T> Iterator for Ones<'a, T> {
    type Item = &'a T;

    ghost next_gives = { λ old result new. (new.one ≡ old.one)
        × MatchOption result ((old.count ≡ 0) × (new.count ≡ 0))
        (λ one. (one ≡ old.one) × (old.count ≡ new.count + 1)) };

    ghost remaining = { λ ones. at_most ones.count };

    fn next(&mut self) -> Option<&'a T> {
        if self.count == 0 {
            return None;
        }
        self.count -= 1;
        Some(self.one)
    }
}

/// An iterator of `count` items: the reference `one` again and again, and the error 7 once.
///
/// The error is the item after which `bad` items are left. If `bad` is at least `count`, there is no error.
#[derive(Drop)]
pub struct Mixed<'a, T> {
    pub count: usize,
    pub bad: usize,
    pub one: &'a T,
}

impl<'a, T> Iterator for Mixed<'a, T> {
    type Item = Result<&'a T, u8>;

    ghost next_gives = { λ old result new. (new.one ≡ old.one) × (new.bad ≡ old.bad)
        × MatchOption result ((old.count ≡ 0) × (new.count ≡ 0)) (λ _. old.count ≡ new.count + 1) };

    ghost remaining = { λ mixed. at_most mixed.count };

    fn next(&mut self) -> Option<Result<&'a T, u8>> {
        if self.count == 0 {
            return None;
        }
        self.count -= 1;
        if self.count == self.bad {
            Some(Err(7))
        } else {
            Some(Ok(self.one))
        }
    }

    fn size_hint(&self) -> (usize, Option<usize>) {
        (self.count, Some(self.count))
    }
}

impl<T> ExactSizeIterator for Mixed<'_, T> {
    fn len(&self) -> usize {
        self.count
    }
}
