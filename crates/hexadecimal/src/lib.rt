// Hexadecimal digits and lines of them. What calls it knows how long its lines are and that they hold digits, so its functions require that.
#![tactic(auto)]

pub mod digit;
pub mod line;
