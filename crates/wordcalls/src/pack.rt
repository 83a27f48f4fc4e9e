// What a host sees after digits are packed.
ghost use Rattle.std.specs.Prelude.{◌+◌, ◌*◌, length, get_or};
ghost use Rattle.buffers.specs.Shows.{Shows};
ghost use Rattle.requests.specs.Exact.{Seen};
ghost use Rattle.matrix.specs.Pack.{pack_tests};

use requests::{Size, word};

#[unsafe(no_mangle)]
pub extern "C" fn call_pack(rows: u64, columns: u64, cells: &[u8], out: &mut [u64]) -> u64
    ensures { Seen (pack_tests (record { rows = rows; columns = columns }) cells.now (length out.old)) out.old (Shows rows columns (λ i j. get_or cells.now (i * columns + j) 0)) result out.new }
{
    word(matrix::pack::pack(Size { rows, columns }, cells, out))
}
