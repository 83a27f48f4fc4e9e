// Sixty-four cells at once: a unit word and a sign word, by value. A cell is a digit of the field of three elements.
#![tactic(auto)]

pub mod combination;
pub mod counts;
pub mod fault;
pub mod lanes;
pub mod lowest;
pub mod mask;
pub mod negation;
pub mod scaling;
pub mod sum;

// That no sign stands without its unit is no ghost field: loads and the tests of faults hold words of any bits, and would need a second type of the same
// two words.
#[derive(Clone, Copy)]
pub struct Cells {
    pub unit: u64,
    pub sign: u64,
}
