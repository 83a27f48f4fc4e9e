// Packed matrices over the field of three elements: the requests of the library. None of them asks anything of its caller: any sizes, any
// digit and buffers of any length get an answer, and a refusal leaves every buffer as it was.
// A size and its words are handed in apart, as C and README's callers have them: before the tests nothing is known of the two that a struct could say.
// Counts are cast behind the tests: usize::try_from would add a refusal that cannot come.
#![tactic(auto)]

mod by_row;
pub mod check;
pub mod combination;
mod default_width;
pub mod job;
mod meant;
mod misfit;
pub mod negation;
pub mod opening;
pub mod pack;
pub mod product;
pub mod quote;
mod quoted;
pub mod scaling;
pub mod tally;
pub mod total;
pub mod transpose;
pub mod turn;
pub mod unpack;
mod unpacked;
pub mod width;
