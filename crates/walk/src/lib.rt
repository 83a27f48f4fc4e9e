// Walks the list of row steps over buffers: counts it, finds a place in it by counting, and carries out steps.
#![tactic(auto)]

pub mod blocks;
pub mod count;
pub mod factors;
mod many;
mod piece;
pub mod place;
mod row_step;
mod rows_part;
mod table_part;
pub mod whole;

// What is left of a turn: steps to skip, since they were made before, and steps that may be made.
#[derive(Clone, Copy)]
pub struct Left {
    pub skip: u64,
    pub budget: u64,
}
