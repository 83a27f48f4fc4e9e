// What a host sees after a negation.
ghost use Rattle.std.specs.Prelude.{◌*◌, ◌%◌, length};
ghost use Rattle.buffers.specs.Buffer.{cell};
ghost use Rattle.buffers.specs.Shows.{Shows};
ghost use Rattle.requests.specs.Exact.{Seen};
ghost use Rattle.requests.specs.Single.{single_tests};

use requests::{Size, word};

#[unsafe(no_mangle)]
pub extern "C" fn call_negation(rows: u64, columns: u64, a: &[u64], out: &mut [u64]) -> u64
    ensures { Seen (single_tests (record { rows = rows; columns = columns }) (record { rows = rows; columns = columns }) a.now (length out.old)) out.old (Shows rows columns (λ i j. 2 * cell columns a.now i j % 3)) result out.new }
{
    word(matrix::negation::negation(Size { rows, columns }, a, out))
}
