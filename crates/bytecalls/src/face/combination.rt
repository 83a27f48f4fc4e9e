// What a host sees after a combination.
ghost use Rattle.std.specs.Prelude.{◌+◌, ◌*◌, ◌%◌, length};
ghost use Rattle.buffers.specs.Buffer.{cell};
ghost use Rattle.requests.specs.Exact.{Seen};
ghost use Rattle.wordbytes.specs.Bytes.{words_in};
ghost use Rattle.wordbytes.specs.ShowsBytes.{ShowsBytes};
ghost use Rattle.cface.specs.Pair.{pair_face_tests};

use cface::combination::nyuzolamba_combination;

pub fn seen_combination(
    a_rows: u64,
    a_columns: u64,
    b_rows: u64,
    b_columns: u64,
    digit: u64,
    a: &[u8],
    b: &[u8],
    out: &mut [u8],
) -> u64
    ensures { Seen (pair_face_tests (record { rows = a_rows; columns = a_columns }) (record { rows = b_rows; columns = b_columns }) digit a.now b.now (length out.old)) out.old (ShowsBytes a_rows a_columns (λ i j. (cell a_columns (words_in a.now) i j + digit * cell a_columns (words_in b.now) i j) % 3)) result out.new }
{
    nyuzolamba_combination(a_rows, a_columns, b_rows, b_columns, digit, a, b, out)
}
