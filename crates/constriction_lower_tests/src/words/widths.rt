//! A test of widening words, and of narrowing wider words.

use constriction_words::{BitArray, WordOf};

/// Returns whether `word` widens to `wide`, and `wider` narrows to `narrowed`.
fn is_width<W, T>(word: W, wide: T, wider: T, narrowed: W) -> bool
where
    W: WordOf<T> + PartialEq,
    T: BitArray + PartialEq,
{
    word.widen() == wide && W::narrow(wider) == narrowed
}

#[test]
fn u8_in_wider(rt: HostRuntime) {
    for (word, wide, wider, narrowed) in [
        (0u8, 0u16, 0u16, 0u8),
        (1, 1, 256, 0),
        (16, 16, 257, 1),
        (254, 254, 65534, 254),
        (255, 255, 65535, 255),
    ] {
        assert!(rt; is_width(word, wide, wider, narrowed));
    }
}
