// The C face as an archive: each call of cface, exported under its name for C hosts.
#![tactic(auto)]

pub mod check;
pub mod combination;
pub mod negation;
pub mod open;
pub mod product;
pub mod quote;
pub mod turn;
pub mod width;
