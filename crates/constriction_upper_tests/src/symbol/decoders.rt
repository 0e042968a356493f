//! Tests of decoders that borrow or own the bits of a stack, and of a small stack.

use super::bits::{gives, writes};
use super::coders::has_len;
use constriction_base::backends::Stack;
use constriction_symbol::coder::{DefaultStackCoder, NewSmallStack, SmallBitStack};

/// Returns whether an iterator and a decoder that borrow the bits `1011` read them from the last to the first.
fn lends(coder: &DefaultStackCoder) -> bool {
    let mut bits = coder.iter();
    matches!(bits.next(), Some(Ok(true)))
        && gives::<Stack, _>(&mut bits, b"101.")
        && gives::<Stack, _>(&mut coder.as_decoder(), b"1101..")
}

/// Checks that decoders read the last bit of a stack first, and that borrowed bits stay on the stack.
#[test]
fn a_stack_is_read(rt: HostRuntime) {
    let mut coder: DefaultStackCoder = DefaultStackCoder::new(rt.alloc());
    let is_lent = writes::<Stack, _>(&mut coder, b"1011") && lends(&coder) && has_len(&coder, 4);
    let mut decoder = coder.into_decoder();
    let is_read = gives::<Stack, _>(&mut decoder, b"1101..");
    assert!(rt; is_lent && is_read);
}

/// Checks that a small stack returns two words of bits, the last bit first.
#[test]
fn a_small_stack_of_two_words(rt: HostRuntime) {
    let mut stack = SmallBitStack::new(rt.alloc());
    assert!(rt;
        writes::<Stack, _>(&mut stack, &[b'1'; 125])
            && writes::<Stack, _>(&mut stack, b"011")
            && gives::<Stack, _>(&mut stack, b"110")
            && gives::<Stack, _>(&mut stack, &[b'1'; 125])
            && gives::<Stack, _>(&mut stack, b".")
    );
}
