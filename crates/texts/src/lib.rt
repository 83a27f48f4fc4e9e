// Whole texts: matrices read out of a text, a product written as one, and the program multiply's answer to what it read.
#![tactic(auto)]

mod limit;
pub mod multiply;
mod read;
pub mod stops;
mod write;
