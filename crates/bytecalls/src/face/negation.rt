// What a host sees after a negation.
ghost use Rattle.std.specs.Prelude.{◌*◌, ◌%◌, length};
ghost use Rattle.buffers.specs.Buffer.{cell};
ghost use Rattle.requests.specs.Exact.{Seen};
ghost use Rattle.wordbytes.specs.Bytes.{words_in};
ghost use Rattle.wordbytes.specs.ShowsBytes.{ShowsBytes};
ghost use Rattle.cface.specs.Negation.{negation_face_tests};

use cface::negation::nyuzolamba_negation;

pub fn seen_negation(rows: u64, columns: u64, a: &[u8], out: &mut [u8]) -> u64
    ensures { Seen (negation_face_tests (record { rows = rows; columns = columns }) a.now (length out.old)) out.old (ShowsBytes rows columns (λ i j. 2 * cell columns (words_in a.now) i j % 3)) result out.new }
{
    nyuzolamba_negation(rows, columns, a, out)
}
