// Reads A, then B, then the end of the input, and prints their product and its total, or one refusal line: texts::multiply decides all of it.
#![tactic(auto)]

mod input;

use input::read_text;
use std::io;
use std::io::Write;
use texts::multiply::multiply;

// Two matrices of 128 rows and 128 columns take 16,658 bytes; one byte more is read, so that longer input is seen to be longer and input
// without an end gets its answer. No answer is longer than 8,338 bytes.
fn main(rt: HostRuntime) -> io::Result<()> {
    let mut input = [0; 16659];
    let mut output = [0; 8338];
    let read = read_text(&mut rt.stdin(), &mut input);
    let written = multiply(&input[..read.bytes], &mut output);
    rt.stdout().write_all(&output[..written])
}
