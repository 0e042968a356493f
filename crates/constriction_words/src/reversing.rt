//! Reverses the bits of words of 64 and 128 bits, by halves.
//!
//! The compiler turns `u32::reverse_bits` into a swap of bytes, masks and shifts. It turns `u64::reverse_bits` and
//! `u128::reverse_bits` into loops, which take about ten times as long.

ghost use Rattle.std.specs.Prelude.{◌≡◌, reverse};
ghost use Rattle.constriction_words.specs.Bits.{bits_of};

/// Returns `word` with its bits in reverse order.
pub fn reversed_long(word: u64) -> u64
    ensures { bits_of 64 result ≡ reverse (bits_of 64 word) }
{
    let low = u32::reverse_bits((word % (1 << 32)) as u32);
    let high = u32::reverse_bits((word >> 32) as u32);
    high as u64 + low as u64 * (1 << 32)
}

/// Returns `word` with its bits in reverse order.
pub fn reversed_longest(word: u128) -> u128
    ensures { bits_of 128 result ≡ reverse (bits_of 128 word) }
{
    let low = reversed_long((word % (1 << 64)) as u64);
    let high = reversed_long((word >> 64) as u64);
    high as u128 + low as u128 * (1 << 64)
}
