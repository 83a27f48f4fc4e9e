// The calls of the C face.
pub mod check;
pub mod combination;
pub mod negation;
pub mod open;
pub mod product;
pub mod quote;
pub mod turn;
pub mod turns;
pub mod width;
