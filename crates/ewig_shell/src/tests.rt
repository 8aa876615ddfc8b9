//! Tests of the shell over memory.

mod faults;
mod inputs;
mod refused;
mod trial;
