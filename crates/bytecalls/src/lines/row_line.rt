// What a host sees after the line of a row is read, and after one is written.
ghost use Rattle.std.specs.Prelude.{length};
ghost use Rattle.buffers.specs.Buffer.{wide};
ghost use Rattle.requests.specs.Exact.{Seen, Exact};
ghost use Rattle.frames.specs.RowLine.{line_of, read_row_tests, write_row_tests};
ghost use Rattle.bytecalls.specs.Lines.{RowRead};

use frames::row_line::{read_row, write_row};
use requests::word;

pub fn seen_read_row(columns: u64, line: &[u8], words: &mut [u64]) -> u64
    ensures { Seen (read_row_tests columns line.now (length words.old)) words.old (RowRead columns line.now) result words.new }
{
    word(read_row(columns, line, words))
}

pub fn seen_write_row(columns: u64, words: &[u64], line: &mut [u8]) -> u64
    ensures { Exact (write_row_tests columns (length words.now) (length line.old)) line.old (line_of (wide columns) words.now) result line.new }
{
    word(write_row(columns, words, line))
}
