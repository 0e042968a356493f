//! Tests of worked examples: each runs commands on given inputs, and checks the exact output or fault.

use super::runs::{gives, stops};
use std::test::Fail;

#[test]
fn ans_encode_two(rt: HostRuntime) -> Result<(), Fail> {
    gives(
        rt.alloc(),
        "ans-encode",
        b"3 2 16777211\n1 1\n",
        b"16777220\n",
    )
}

#[test]
fn ans_decode_two(rt: HostRuntime) -> Result<(), Fail> {
    gives(
        rt.alloc(),
        "ans-decode",
        b"3 2 16777211\n2 16777220\n",
        b"1 1\n",
    )
}

#[test]
fn decode_counts(rt: HostRuntime) -> Result<(), Fail> {
    stops(rt.alloc(), "ans-decode", b"3 2 16777211\n\n", b"no count\n")?;
    gives(rt.alloc(), "ans-decode", b"3 2 16777211\n2\n", b"0 0\n")?;
    stops(
        rt.alloc(),
        "ans-decode",
        b"3 2 16777211\n16777217\n",
        b"bad number\n",
    )?;
    gives(rt.alloc(), "ans-decode", b"3 2 16777211\n0 5\n", b"\n")
}

#[test]
fn decode_zero_last_word(rt: HostRuntime) -> Result<(), Fail> {
    let line =
        b"Tried to decode from compressed data that ends with a zero word, which is invalid for an ANS coder.\n";
    stops(rt.alloc(), "ans-decode", b"3 2 16777211\n1 7 0\n", line)
}

#[test]
fn encode_empty_lines(rt: HostRuntime) -> Result<(), Fail> {
    stops(rt.alloc(), "ans-encode", b"\n\n", b"no weights\n")?;
    stops(rt.alloc(), "ans-encode", b"", b"no weights\n")?;
    gives(rt.alloc(), "ans-encode", b"3 2 16777211\n\n", b"\n")
}

#[test]
fn program_fault_texts(rt: HostRuntime) -> Result<(), Fail> {
    let total: &[u8] = b"weights do not sum to 16777216\n";
    stops(rt.alloc(), "ans-encode", b"3 2 16777210\n1\n", total)?;
    stops(
        rt.alloc(),
        "ans-encode",
        b"3 2 16777211\n3\n",
        b"Impossible symbol.\n",
    )
}

#[test]
fn range_one_symbol(rt: HostRuntime) -> Result<(), Fail> {
    gives(
        rt.alloc(),
        "range-encode",
        b"8388608 8388608\n1\n",
        b"2147483648\n",
    )?;
    gives(
        rt.alloc(),
        "range-decode",
        b"8388608 8388608\n1 2147483648\n",
        b"1\n",
    )
}

#[test]
fn chain_split(rt: HostRuntime) -> Result<(), Fail> {
    let text = b"8388608 8388608\n1 287454020 256\n";
    gives(rt.alloc(), "chain-split", text, b"0\n\n2149724996 273\n")?;
    // without a decode, the word is the remainders head, and no bits are left over
    gives(
        rt.alloc(),
        "chain-split",
        b"8388608 8388608\n0 256\n",
        b"\n\n256 1\n",
    )
}

#[test]
fn golomb_line(rt: HostRuntime) -> Result<(), Fail> {
    gives(rt.alloc(), "golomb", b"0 5 7\n", b"1 00110 0001000\n537\n")
}

#[test]
fn golomb_empty_line(rt: HostRuntime) -> Result<(), Fail> {
    gives(rt.alloc(), "golomb", b"\n", b"\n\n")
}

#[test]
fn huffman_lines(rt: HostRuntime) -> Result<(), Fail> {
    gives(rt.alloc(), "huffman", b"2 2 4 1 1\n", b"00 01 11 100 101\n")?;
    gives(rt.alloc(), "huffman", b"2 1\n", b"1 0\n")?;
    gives(rt.alloc(), "huffman", b"1\n", b"-\n")?;
    // line 2 is not read
    gives(rt.alloc(), "huffman", b" 0\t\r1\nx\n", b"0 1\n")
}

#[test]
fn huffman_ties(rt: HostRuntime) -> Result<(), Fail> {
    gives(rt.alloc(), "huffman", b"1 1 2\n", b"10 11 0\n")?;
    gives(rt.alloc(), "huffman", b"0 0 0\n", b"10 11 0\n")
}

#[test]
fn huffman_deep(rt: HostRuntime) -> Result<(), Fail> {
    gives(
        rt.alloc(),
        "huffman",
        b"1 1 2 3 5\n",
        b"1110 1111 110 10 0\n",
    )
}

#[test]
fn huffman_empty_line(rt: HostRuntime) -> Result<(), Fail> {
    stops(rt.alloc(), "huffman", b"\n", b"no weights\n")
}

/// Checks three chunks, looked up from the last to the first, and a look-up of a missing chunk.
#[test]
fn store_program(rt: HostRuntime) -> Result<(), Fail> {
    let text = b"8388608 8388608\n2 1 0\n1 0\n\n1\n";
    gives(rt.alloc(), "store", text, b"2684354560\n1\n\n1 0\n")?;
    stops(
        rt.alloc(),
        "store",
        b"8388608 8388608\n3\n1 0\n\n1\n",
        b"no such chunk\n",
    )
}
