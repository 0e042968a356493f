//! Tests that symbols have the expected intervals under mixtures of logistic distributions.
//!
//! The symbols are the integers from -100 to 100. Probabilities are 32-bit words, and the precision is 24 bits.

use super::cuts::interval_of;
use constriction_base::model::DecoderModel;
use constriction_models::logistic::Logistic;
use constriction_models::mixture::{Component, Mixture};
use constriction_models::quantizer::LeakyQuantizer;

/// A weight, and a location and a scale in 65536ths.
type Part = (u32, i64, u32);

/// Returns the component of `part`, or `None` if the scale is 0.
fn component(part: Part) -> Option<Component<Logistic>> {
    let distribution = Logistic::new(part.1, part.2)?;
    Some(Component {
        weight: part.0,
        distribution,
    })
}

/// Returns whether `expected` is the interval of `symbol` under the mixture, and its start decodes to `symbol`.
fn has(components: &[Component<Logistic>], symbol: i32, expected: (u64, u64)) -> bool {
    let Ok(mixture) = Mixture::new(components) else {
        return false;
    };
    let Ok(quantizer) = LeakyQuantizer::<u32, 24>::new(-100, 100) else {
        return false;
    };
    let model = quantizer.quantize(mixture);
    if expected.0 >= 16777216 {
        return false;
    }
    let (found, _, _) = model.quantile_function(expected.0 as u32);
    found == symbol && interval_of(&model, &symbol) == Some(expected)
}

/// Returns whether [`has`] holds for the mixture of the three components `parts`.
fn three_have(parts: [Part; 3], symbol: i32, expected: (u64, u64)) -> bool {
    match (
        component(parts[0]),
        component(parts[1]),
        component(parts[2]),
    ) {
        (Some(first), Some(second), Some(third)) => {
            has(&[first, second, third], symbol, expected)
        }
        _ => false,
    }
}

/// Shows that a symbol has the same interval under a mixture of one component as under the component alone.
#[test]
fn one_component(rt: HostRuntime) {
    let holds = match component((7, 229376, 147456)) {
        Some(only) => has(&[only], 7, (13277117, 1074351)),
        None => false,
    };
    assert!(rt; holds);
}

#[test]
fn three_components(rt: HostRuntime) {
    let parts = [(3, 0, 65536), (0, 5, 70000), (1, 655360, 131072)];
    let heavy = [
        (2147483647, -65536, 32768),
        (2147483647, 65536, 32768),
        (2, 0, 1),
    ];
    let cases = [
        (parts, 0, (4772498, 3095836)),
        (parts, 10, (14418272, 522164)),
        (parts, 3, (11724731, 645863)),
        (heavy, -1, (2312259, 4218163)),
        (heavy, 0, (6530422, 3716371)),
        (heavy, 100, (16777215, 1)),
    ];
    for (parts, symbol, expected) in cases {
        assert!(rt; three_have(parts, symbol, expected), "{symbol}");
    }
}
