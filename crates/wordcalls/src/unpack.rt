// What a host sees after digits are unpacked.
ghost use Rattle.std.specs.Prelude.{length};
ghost use Rattle.buffers.specs.Buffer.{cell};
ghost use Rattle.requests.specs.Exact.{Seen};
ghost use Rattle.matrix.specs.Unpacked.{Unpacks};
ghost use Rattle.matrix.specs.Unpack.{unpack_tests};

use requests::{Size, word};

#[unsafe(no_mangle)]
pub extern "C" fn call_unpack(rows: u64, columns: u64, a: &[u64], out: &mut [u8]) -> u64
    ensures { Seen (unpack_tests (record { rows = rows; columns = columns }) a.now (length out.old)) out.old (Unpacks rows columns (cell columns a.now)) result out.new }
{
    word(matrix::unpack::unpack(Size { rows, columns }, a, out))
}
