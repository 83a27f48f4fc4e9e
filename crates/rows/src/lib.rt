// A row as a part of a slice: q unit words and then q sign words, from any word on.
// It is no struct of its slice, distance and word: a row in place is read from the very slice that it is written to, which two structs cannot both lend.
// Rows that are only read keep the same three, so that Made and Readable say of one row what they say of the other.
#![tactic(auto)]

pub mod accumulate;
pub mod block;
pub mod combination;
pub mod fault;
mod in_place;
mod make;
pub mod negation;
pub mod scaling;
pub mod table_step;
pub mod tally;
pub mod wide;
pub mod words;
