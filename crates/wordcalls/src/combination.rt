// What a host sees after a combination.
ghost use Rattle.std.specs.Prelude.{◌+◌, ◌*◌, ◌%◌, length};
ghost use Rattle.buffers.specs.Buffer.{cell};
ghost use Rattle.buffers.specs.Shows.{Shows};
ghost use Rattle.requests.specs.Exact.{Seen};
ghost use Rattle.requests.specs.Pair.{pair_tests};

use requests::{Size, word};

#[unsafe(no_mangle)]
pub extern "C" fn call_combination(
    a_rows: u64,
    a_columns: u64,
    b_rows: u64,
    b_columns: u64,
    d: u8,
    a: &[u64],
    b: &[u64],
    out: &mut [u64],
) -> u64
    ensures { Seen (pair_tests (record { rows = a_rows; columns = a_columns }) (record { rows = b_rows; columns = b_columns }) d a.now b.now (length out.old)) out.old (Shows a_rows a_columns (λ i j. (cell a_columns a.now i j + d * cell a_columns b.now i j) % 3)) result out.new }
{
    let x = Size {
        rows: a_rows,
        columns: a_columns,
    };
    let y = Size {
        rows: b_rows,
        columns: b_columns,
    };
    word(matrix::combination::combination(x, y, d, a, b, out))
}
