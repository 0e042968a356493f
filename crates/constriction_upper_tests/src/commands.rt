//! Tests of the program's runs over lists of bytes.
//!
//! The output of a run is proved in `constriction_commands` for all inputs. The tests show that runs succeed if there
//! is memory, and that the outputs have the expected numbers. Unproved tests cover the lines of faults, and input and
//! output that fail.

mod rows;
mod runs;
