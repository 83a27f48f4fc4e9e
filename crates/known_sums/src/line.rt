// A line of what is shown.
use std::fmt::Display;
use std::io;

// A label, and a number in eight digits or more. Never compiled in where it is called: println! has room of its own on the stack, which would then be the caller's.
#[inline(never)]
pub fn line(rt: &impl Print, label: impl Display + Drop, number: u64) -> io::Result<()> {
    println!(rt; "{label}: {number:08}")
}
