//! Tests that the stack coder decodes the lists that it encodes, if each symbol has its own Gaussian.

use constriction_models::gaussian::Gaussian;
use constriction_models::quantizer::LeakyQuantizer;
use constriction_stack::DefaultAnsCoder;
use constriction_stream::decoding::Decode;
use constriction_stream::encoding::Encode;
use std::alloc::Global;

/// A symbol, and the location and the scale of its Gaussian.
type Item = (i32, i64, u32);

/// Encodes the symbol of `item` with its Gaussian. Returns whether the call succeeds.
fn put(coder: &mut DefaultAnsCoder, quantizer: &LeakyQuantizer<u32, 24>, item: Item) -> bool {
    match Gaussian::new(item.1, item.2) {
        Some(gaussian) => coder
            .encode_symbol(&item.0, quantizer.quantize(gaussian))
            .is_ok(),
        None => false,
    }
}

/// Decodes a symbol with the Gaussian of `item`. Returns whether it is the symbol of `item`.
fn takes(coder: &mut DefaultAnsCoder, quantizer: &LeakyQuantizer<u32, 24>, item: Item) -> bool {
    match Gaussian::new(item.1, item.2) {
        Some(gaussian) => match coder.decode_symbol(quantizer.quantize(gaussian)) {
            Ok(symbol) => symbol == item.0,
            Err(_) => false,
        },
        None => false,
    }
}

/// Encodes `items`, and decodes them from last to first. Returns whether all come back and the coder ends empty.
fn comes_back(alloc: Global, items: &[Item]) -> bool {
    let Ok(quantizer) = LeakyQuantizer::<u32, 24>::new(-1000, 1000) else {
        return false;
    };
    let mut coder = DefaultAnsCoder::new(alloc);
    let mut goes = true;
    for item in items {
        goes = goes & put(&mut coder, &quantizer, *item);
    }
    for k in 0..items.len() {
        goes = goes & takes(&mut coder, &quantizer, items[items.len() - 1 - k]);
    }
    goes & coder.is_empty()
}

#[test]
fn lists_come_back(rt: HostRuntime) {
    let items = [
        (3, 229376, 147456),
        (-1000, 0, 65536),
        (1000, 65536000, 1),
        (0, -3, 4294967295),
        (17, 1114112, 20000),
        (999, i64::MIN, 12345678),
        (-5, i64::MAX, 1),
    ];
    assert!(rt; comes_back(rt.alloc(), &items));
    assert!(rt; comes_back(rt.alloc(), &[]));
}
