// The lines of a matrix in text.
pub mod header;
pub mod row_line;
