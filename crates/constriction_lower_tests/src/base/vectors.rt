//! Tests of a vector as a stack, and of the words that buffers lend.

use super::calls::{pops, prepares, puts, seeks, seems_full, seems_popped, stacks, stands};
use constriction_base::backends::{
    BoundedReadWords, Pos, PosSeek, ReadWords, Seek, Stack, Words, WordsMut, WriteWords,
};
use std::alloc::AllocError;
use std::convert::Infallible;
use std::test::Fail;

/// Returns whether the backend holds `words`.
fn holds<B: Words<u32>>(backend: &B, words: &[u32]) -> bool {
    backend.words() == words
}

/// Writes three words to an empty backend. Returns whether all calls return what is expected.
fn grows<B>(backend: &mut B) -> bool
where
    B: BoundedReadWords<u32, Stack> + ReadWords<u32, Stack, ReadError = Infallible>,
    B: WriteWords<u32, WriteError = AllocError>,
{
    seems_popped(backend)
        & stacks(backend, 0)
        & pops(backend, None)
        & prepares(backend, 3)
        & puts(backend, 7)
        & puts(backend, 8)
        & puts(backend, 9)
}

/// Reads the last two of the words `[7, 8, 9]`. Returns whether all calls return what is expected.
fn shrinks<B>(backend: &mut B) -> bool
where
    B: BoundedReadWords<u32, Stack> + ReadWords<u32, Stack, ReadError = Infallible>,
    B: WriteWords<u32, WriteError = AllocError> + Words<u32>,
{
    let are_three = !seems_full(backend)
        & !seems_popped(backend)
        & stacks(backend, 3)
        & holds(backend, &[7, 8, 9]);
    are_three
        & pops(backend, Some(9))
        & pops(backend, Some(8))
        & stacks(backend, 1)
        & holds(backend, &[7])
}

/// Writes words to an empty backend, and reads the last words. Returns whether all calls return what is expected.
fn grows_and_shrinks<B>(backend: &mut B) -> bool
where
    B: BoundedReadWords<u32, Stack> + ReadWords<u32, Stack, ReadError = Infallible>,
    B: WriteWords<u32, WriteError = AllocError> + Words<u32>,
{
    grows(backend) && shrinks(backend)
}

/// Seeks in the words `[7, 8, 9]`. Returns whether seeks cut the words, and seeks past their end are refused.
fn seeks_by_length<B>(backend: &mut B) -> bool
where
    B: Pos + Seek + PosSeek<Position = usize> + Words<u32>,
    requires { (other : B) → B.can_tell other }
{
    stands(backend, 3)
        & !seeks(backend, 4)
        & holds(backend, &[7, 8, 9])
        & seeks(backend, 3)
        & seeks(backend, 1)
        & holds(backend, &[7])
        & !seeks(backend, 2)
        & stands(backend, 1)
}

/// Changes and reverses the words `[1, 2, 3]` of a vector. Returns whether they are `[3, 9, 1]` then.
fn vector_is_changed(words: &mut Vec<u32>) -> bool {
    if words.len() != 3 {
        return false;
    }
    words.set_word(1, 9);
    words.reverse_words();
    Words::words(&&*words) == [3u32, 9, 1].as_slice()
}

/// Changes and reverses the words of a slice. Returns whether they are `[3, 2, 8]` then.
fn slice_is_changed() -> bool {
    let mut words = [1u32, 2, 3];
    let mut lent = words.as_mut_slice();
    lent.set_word(0, 8);
    lent.reverse_words();
    lent.words() == [3u32, 2, 8].as_slice()
}

#[test]
fn a_vector_is_a_stack(rt: HostRuntime) {
    assert!(rt; grows_and_shrinks(&mut Vec::<u32>::new(rt.alloc())));
}

#[test]
fn a_vector_seeks_by_its_length(rt: HostRuntime) -> Result<(), Fail> {
    let mut words = [7u32, 8, 9].to_vec(rt.alloc())?;
    assert!(rt; seeks_by_length(&mut words));
    Ok(())
}

#[test]
fn buffers_lend_and_change_their_words(rt: HostRuntime) -> Result<(), Fail> {
    let mut words = [1u32, 2, 3].to_vec(rt.alloc())?;
    assert!(rt; vector_is_changed(&mut words));
    assert!(rt; slice_is_changed());
    assert!(rt; [5u32].as_slice().words() == [5u32].as_slice());
    Ok(())
}
