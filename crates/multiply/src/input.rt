// Standard input, until the first fault in it: so a fault on an open pipe gets its answer at once, whoever may go on writing.
ghost use Rattle.std.specs.Prelude.{◌≡◌, ◌+◌, ◌≤◌, length, take};
ghost use Rattle.multiply.specs.Reads.{Reads};

use std::io::{Read, Stdin};
use texts::stops::stops;

// How many bytes were read, and how many of them the last read gave: no code asks that, and what is said of the reading does.
#[derive(Clone, Copy)]
pub struct Input {
    pub bytes: usize,
    pub last: usize,
}

// One read, behind the bytes that are there: how many it gave, and 0 at the end of the input or where it failed. No Option or Result: Reads.ended
// says one thing of both, and main prints the same for both.
fn read_more(stdin: &mut Stdin, buffer: &mut [u8], done: usize) -> usize
    requires { done ≤ length buffer.old }
    ensures { (done + result ≤ length buffer.new) × (take done buffer.new ≡ take done buffer.old) × (length buffer.new ≡ length buffer.old) }
{
    stdin.read(&mut buffer[done..]).unwrap_or(0)
}

// A while: no iterator gives reads behind one another in one buffer, and io's own loop would wait for the end of an open pipe.
pub fn read_text(stdin: &mut Stdin, buffer: &mut [u8]) -> Input
    ensures { Reads buffer.new result.bytes result.last }
{
    let mut bytes = 0;
    let mut last = 0;
    while bytes < buffer.len() {
        last = read_more(stdin, buffer, bytes);
        bytes += last;
        if last == 0 || stops(&buffer[..bytes]) {
            break;
        }
    }
    Input { bytes, last }
}
