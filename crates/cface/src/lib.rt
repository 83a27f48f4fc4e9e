// The C face: requests over bytes. Each word is eight bytes, lowest byte first, and each call returns document 01's number. None of them asks
// anything of its caller: any counts, any record and buffers of any length get an answer, and a refusal changes no byte. Name, parameters and clause of each
// are those of the C interface, which cface_c exports; inside, a call answers a Result, and one place makes the word of it.
#![tactic(auto)]

pub mod check;
pub mod combination;
mod count;
mod limit;
pub mod negation;
pub mod open;
mod pair;
pub mod product;
pub mod quote;
mod record;
mod room;
pub mod turn;
pub mod width;
