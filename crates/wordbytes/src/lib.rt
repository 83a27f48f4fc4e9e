// Words as bytes.
#![tactic(auto)]

pub mod bytes;
