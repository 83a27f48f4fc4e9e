// What a host sees after a check.
ghost use Rattle.requests.specs.Exact.{Numbered};
ghost use Rattle.cface.specs.Check.{check_face_tests};

use cface::check::nyuzolamba_check;

pub fn seen_check(rows: u64, columns: u64, a: &[u8]) -> u64
    ensures { Numbered (check_face_tests (record { rows = rows; columns = columns }) a.now) result }
{
    nyuzolamba_check(rows, columns, a)
}
