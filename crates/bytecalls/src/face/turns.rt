// What a host sees after an opening and a turn for each of some budgets. A refused turn would end it with the turn's word: the contract says
// that none is refused, since after an accepted opening only 0 comes back. The C interface answers words, so a refusal is a word here that is not 0.
ghost use Rattle.std.specs.Prelude.{length};
ghost use Rattle.requests.specs.Exact.{Seen};
ghost use Rattle.cface.specs.Open.{open_face_tests};
ghost use Rattle.cface.specs.Stands.{Held};
ghost use Rattle.bytecalls.specs.Run.{Run};

use cface::open::nyuzolamba_open;
use cface::turn::nyuzolamba_turn;

pub fn seen_turns(
    a_rows: u64,
    a_columns: u64,
    b_rows: u64,
    b_columns: u64,
    width: u64,
    job: &mut [u8],
    a: &[u8],
    b: &[u8],
    table: &mut [u8],
    product: &mut [u8],
    budgets: &[u32],
) -> u64
    ensures { Seen {S = Held} (open_face_tests (record { rows = a_rows; columns = a_columns }) (record { rows = b_rows; columns = b_columns }) width (length job.old) a.now b.now (length table.old) (length product.old)) (job.old, (table.old, product.old)) (Run (record { rows = a_rows; columns = a_columns }) (record { rows = b_rows; columns = b_columns }) width a.now b.now budgets.now) result (job.new, (table.new, product.new)) }
{
    let opened = nyuzolamba_open(
        a_rows, a_columns, b_rows, b_columns, width, job, a, b, table, product,
    );
    if opened != 0 {
        return opened;
    }
    for &budget in budgets {
        let turned = nyuzolamba_turn(job, a, b, table, product, budget);
        if turned != 0 {
            return turned;
        }
    }
    0
}
