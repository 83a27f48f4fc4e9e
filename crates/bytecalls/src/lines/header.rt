// What a host sees after a header line is read, and after one is written.
ghost use Rattle.std.specs.Prelude.{ℕ, length};
ghost use Rattle.requests.specs.Exact.{Seen, Exact};
ghost use Rattle.frames.specs.Header.{header_of, header_told, read_header_tests, write_header_tests};
ghost use Rattle.bytecalls.specs.Lines.{HeaderRead};

use frames::header::{read_header, write_header};
use requests::{Reason, Size, word};

pub fn seen_read_header(line: &[u8]) -> Result<Size, Reason>
    ensures { Seen {S = ℕ × ℕ} (read_header_tests line.now) (0, 0) (HeaderRead line.now) (header_told result).0 (header_told result).1 }
{
    read_header(line)
}

pub fn seen_write_header(rows: u64, columns: u64, line: &mut [u8]) -> u64
    ensures { Exact (write_header_tests (record { rows = rows; columns = columns }) (length line.old)) line.old (header_of (record { rows = rows; columns = columns })) result line.new }
{
    word(write_header(Size { rows, columns }, line))
}
