//! The tests of the values in cells and of the heap.
#![tactic(auto)]

#[cfg(test)]
mod counted_rows;
#[cfg(test)]
mod elements;
#[cfg(test)]
mod turns;
#[cfg(test)]
mod writes;
