//! [`Symbol`]: the types of symbols that a caller may pass.

ghost use Rattle.std.specs.Prelude.{◌≡◌, ◌↔◌, ◌<◌, ◌≤◌, ◌++◌, ◌^◌, All, ℕ, List, [], ◌∷◌, get_or, length, IsTrue};
ghost use Rattle.std.proofs.Common.{refl};
ghost use Rattle.constriction_inputs.specs.Narrow.{lowest_bits};
ghost use Rattle.constriction_inputs.specs.laws.Symbols.{lowest_kept, lowest_parts};

/// A type of the symbols in a caller's list: `usize`, `u8` or `u16`.
///
/// A call that encodes reads the symbols where they lie, so it needs no list of another type. A call that decodes
/// writes a symbol for each number that it decodes ([`put_numbers`]).
///
/// # Examples
///
/// ```
/// Symbol::number_at(&[7u8, 9], 1) // 9, of type `usize`
/// ```
pub trait Symbol: Copy + Drop {
    // The numbers that symbols stand for.
    ghost numbers: { List Self → List ℕ };

    ghost count_law: { (xs : List Self) → length (numbers xs) ≡ length xs };

    // The numbers of a list are those of its parts, so each symbol stands for a number by itself.
    ghost parts_law: { (xs ys : List Self) → numbers (xs ++ ys) ≡ numbers xs ++ numbers ys };

    // How many values the type has.
    ghost many: { ℕ };

    // What symbols of the type keep of these numbers.
    ghost kept: { List ℕ → List ℕ };

    ghost kept_parts_law: { (ns ms : List ℕ) → kept (ns ++ ms) ≡ kept ns ++ kept ms };

    // Numbers below `many` are kept as they are.
    ghost kept_law: { (ns : List ℕ) → All (λ n. n < many) ns → kept ns ≡ ns };

    /// Returns the number of the symbol at index `place`. The caller proves that the list has that index.
    fn number_at(list: &[Self], place: usize) -> usize
        requires { place < length list.now }
        ensures { result ≡ get_or (numbers list.now) place 0 };

    /// Returns the symbol that stands for `number`, or for its lowest bits if the type has no such symbol.
    fn of(number: usize) -> Self
        ensures { numbers (result ∷ []) ≡ kept (number ∷ []) };

    /// Returns whether the type has a symbol for each number below `count`.
    fn has_numbers(count: usize) -> bool
        ensures { IsTrue result ↔ (count ≤ many) };
}

impl Symbol for usize {
    ghost numbers = { λ xs. xs };

    ghost count_law = { λ xs. refl };

    ghost parts_law = { λ xs ys. refl };

    ghost many = { 2 ^ 64 };

    ghost kept = { λ ns. ns };

    ghost kept_parts_law = { λ ns ms. refl };

    ghost kept_law = { λ ns below. refl };

    #[inline(always)]
    fn number_at(list: &[usize], place: usize) -> usize {
        list[place]
    }

    #[inline(always)]
    fn of(number: usize) -> usize {
        number
    }

    #[inline]
    fn has_numbers(_count: usize) -> bool {
        true
    }
}

impl Symbol for u8 {
    ghost numbers = { λ xs. xs };

    ghost count_law = { λ xs. refl };

    ghost parts_law = { λ xs ys. refl };

    ghost many = { 2 ^ 8 };

    ghost kept = { lowest_bits 8 };

    ghost kept_parts_law = { lowest_parts 8 };

    ghost kept_law = { lowest_kept 8 };

    #[inline(always)]
    fn number_at(list: &[u8], place: usize) -> usize {
        list[place] as usize
    }

    #[inline(always)]
    fn of(number: usize) -> u8 {
        (number % 256) as u8
    }

    #[inline]
    fn has_numbers(count: usize) -> bool {
        count <= 256
    }
}

impl Symbol for u16 {
    ghost numbers = { λ xs. xs };

    ghost count_law = { λ xs. refl };

    ghost parts_law = { λ xs ys. refl };

    ghost many = { 2 ^ 16 };

    ghost kept = { lowest_bits 16 };

    ghost kept_parts_law = { lowest_parts 16 };

    ghost kept_law = { lowest_kept 16 };

    #[inline(always)]
    fn number_at(list: &[u16], place: usize) -> usize {
        list[place] as usize
    }

    #[inline(always)]
    fn of(number: usize) -> u16 {
        (number % 65536) as u16
    }

    #[inline]
    fn has_numbers(count: usize) -> bool {
        count <= 65536
    }
}

/// Sets each symbol to the symbol of the number at the same index of `wide` ([`Symbol::of`]).
///
/// The caller proves that both lists have the same length.
///
/// # Examples
///
/// ```
/// let mut symbols = [0u8; 2];
/// put_numbers(&mut symbols, &[7, 9]); // the symbols are [7, 9]
/// ```
pub fn put_numbers<S: Symbol>(symbols: &mut [S], wide: &[usize])
    requires { length wide.now ≡ length symbols.now }
    ensures numbers { S.numbers symbols.new ≡ S.kept wide.now }
    ensures count { length symbols.new ≡ length symbols.old }
{
    for i in 0..symbols.len() {
        symbols[i] = S::of(wide[i]);
    }
}
