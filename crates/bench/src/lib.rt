// What bench/ measures: row steps, many times over, and requests. No part of the library, and no statement is made of it beyond its safety.
// Answers are numbers, since C gets them.
#![tactic(auto)]

pub mod calls;
pub mod copies;
pub mod row_steps;
