// A matrix in text, line by line: the header line and the line of a row, read and written.
#![tactic(auto)]

pub mod header;
pub mod row_line;
