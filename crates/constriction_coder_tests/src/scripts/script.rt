//! Reads a script: splits its text into acts.
//!
//! A script is a text of acts. An act is a verb and the numbers after it. The verb names a call that uses the numbers,
//! or a check that expects them. `put 1 head 255` encodes the symbol 1, and then expects the head 255. If an act
//! expects an error, the answer follows the verb after a `!`, as in `list!full 1 1`. Among the items of a list, `bad7`
//! stands for the error 7. Spaces and line ends separate the words of a script.

use std::alloc::{AllocError, Global};

/// One step of a script: a call with its numbers, or a check of a number.
#[derive(Drop)]
pub struct Act<'a> {
    /// The act's text in the script, which a failing test reports.
    pub text: &'static str,
    pub verb: &'static str,
    /// The answer that the act expects of the call (see [`super::answers`]).
    pub answer: &'static str,
    pub numbers: &'a [u128],
    /// `numbers`, as symbols.
    pub symbols: &'a [usize],
}

/// The place of an act in a script.
#[derive(Clone, Copy)]
struct Place {
    word: &'static str,
    /// The script's text, from this act to the end.
    rest: &'static str,
    /// How many numbers of the script come before the act's numbers.
    from: usize,
}

/// A script, split into its acts and their numbers.
#[derive(Drop)]
pub struct Script {
    places: Vec<Place>,
    numbers: Vec<u128>,
    symbols: Vec<usize>,
}

/// The number that stands for the error 0. The error `k` has the number `BAD + k`.
const BAD: u128 = 1 << 64;

/// Returns `Some(k)` if `numbers[at]` exists and stands for the error `k`, and `None` otherwise.
pub fn error_at(numbers: &[u128], at: usize) -> Option<u8> {
    match numbers.get(at) {
        Some(number) if *number >= BAD => u8::try_from(*number - BAD).ok(),
        _ => None,
    }
}

/// Returns the number that `word` stands for, or `None` if `word` is a verb.
fn number_of(word: &str) -> Option<u128> {
    match word.strip_prefix("bad") {
        Some(rest) => rest.parse::<u8>().ok().map(|error| BAD + error as u128),
        None => word.parse::<u128>().ok(),
    }
}

/// Returns the meaning of `word` in the table `verbs`, or `None` if `word` isn't in the table.
pub fn find<Verb: Copy>(verbs: &[(&str, Verb)], word: &str) -> Option<Verb> {
    for (name, verb) in verbs {
        if *name == word {
            return Some(*verb);
        }
    }
    None
}

/// Returns the part of `text` that begins with the first word at or after the byte `at`.
fn rest_at(text: &'static str, at: usize) -> &'static str {
    text.get(at..).unwrap_or("").trim_start()
}

impl Script {
    /// Reads a script from its text.
    pub fn read(alloc: Global, text: &'static str) -> Result<Script, AllocError> {
        let mut script = Script {
            places: Vec::new(alloc),
            numbers: Vec::new(alloc),
            symbols: Vec::new(alloc),
        };
        let mut at: usize = 0;
        for word in text.split_whitespace() {
            let rest = rest_at(text, at);
            script.add(word, rest)?;
            at = text
                .len()
                .saturating_sub(rest.len())
                .saturating_add(word.len());
        }
        Ok(script)
    }

    /// Adds `word` to the script. `rest` is the script's text from this word on.
    fn add(&mut self, word: &'static str, rest: &'static str) -> Result<(), AllocError> {
        match number_of(word) {
            Some(number) => {
                self.numbers.push(number)?;
                self.symbols
                    .push(usize::try_from(number).unwrap_or(usize::MAX))?;
            }
            None => {
                let from = self.numbers.len();
                self.places.push(Place { word, rest, from })?;
            }
        }
        Ok(())
    }

    /// Returns the number of acts.
    pub fn len(&self) -> usize {
        self.places.len()
    }

    /// Returns the act with the number `at`, counted from 0. Past the last act, the text and the verb are empty.
    pub fn act(&self, at: usize) -> Act<'_> {
        let end = Place {
            word: "",
            rest: "",
            from: self.numbers.len(),
        };
        let here = self.places.get(at).copied().unwrap_or(end);
        let next = self
            .places
            .get(at.saturating_add(1))
            .copied()
            .unwrap_or(end);
        let length = here.rest.len().saturating_sub(next.rest.len());
        let (verb, answer) = here.word.split_once('!').unwrap_or((here.word, ""));
        Act {
            text: here.rest.get(..length).unwrap_or(here.word).trim_end(),
            verb,
            answer,
            numbers: self.numbers.get(here.from..next.from).unwrap_or(&[]),
            symbols: self.symbols.get(here.from..next.from).unwrap_or(&[]),
        }
    }
}
