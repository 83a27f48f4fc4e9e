// What a host sees after a transpose.
ghost use Rattle.std.specs.Prelude.{length};
ghost use Rattle.buffers.specs.Buffer.{cell};
ghost use Rattle.buffers.specs.Shows.{Shows};
ghost use Rattle.requests.specs.Exact.{Seen};
ghost use Rattle.requests.specs.Single.{single_tests};

use requests::{Size, word};

#[unsafe(no_mangle)]
pub extern "C" fn call_transpose(rows: u64, columns: u64, a: &[u64], out: &mut [u64]) -> u64
    ensures { Seen (single_tests (record { rows = rows; columns = columns }) (record { rows = columns; columns = rows }) a.now (length out.old)) out.old (Shows columns rows (λ i j. cell columns a.now j i)) result out.new }
{
    word(matrix::transpose::transpose(Size { rows, columns }, a, out))
}
