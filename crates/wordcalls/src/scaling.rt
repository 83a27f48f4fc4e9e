// What a host sees after a scaling.
ghost use Rattle.std.specs.Prelude.{◌*◌, ◌%◌, length};
ghost use Rattle.buffers.specs.Buffer.{cell};
ghost use Rattle.buffers.specs.Shows.{Shows};
ghost use Rattle.requests.specs.Exact.{Seen};
ghost use Rattle.matrix.specs.Scaling.{scaling_tests};

use requests::{Size, word};

#[unsafe(no_mangle)]
pub extern "C" fn call_scaling(rows: u64, columns: u64, d: u8, a: &[u64], out: &mut [u64]) -> u64
    ensures { Seen (scaling_tests (record { rows = rows; columns = columns }) d a.now (length out.old)) out.old (Shows rows columns (λ i j. cell columns a.now i j * d % 3)) result out.new }
{
    word(matrix::scaling::scaling(Size { rows, columns }, d, a, out))
}
