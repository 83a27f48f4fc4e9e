// Blocks of 64 words, in which each bit changes its word for its place: column t of the words becomes word t.
#![tactic(auto)]

pub mod block;
mod exchange;
mod transpose;
