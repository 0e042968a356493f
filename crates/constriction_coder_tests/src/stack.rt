//! Tests of the stack coder. [`acts`] and [`owning`] run scripts, at the types of [`coders`].

mod acts;
mod calls;
mod coders;
mod owning;
mod reading;
mod refused;
mod rows;
mod slices;
