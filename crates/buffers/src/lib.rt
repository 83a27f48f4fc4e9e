// What a buffer of words holds: the definitions and laws of planes, cells, legal buffers and encodings.
#![tactic(auto)]

pub mod planes;
