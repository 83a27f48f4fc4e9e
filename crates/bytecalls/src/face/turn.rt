// What a host sees after a turn.
ghost use Rattle.requests.specs.Exact.{Seen};
ghost use Rattle.cface.specs.Turn.{turn_face_tests};
ghost use Rattle.cface.specs.Stands.{Held};
ghost use Rattle.cface.specs.JobShows.{TurnedJob};

use cface::turn::nyuzolamba_turn;

pub fn seen_turn(
    job: &mut [u8],
    a: &[u8],
    b: &[u8],
    table: &mut [u8],
    product: &mut [u8],
    budget: u32,
) -> u64
    ensures { Seen {S = Held} (turn_face_tests job.old a.now b.now table.old product.old) (job.old, (table.old, product.old)) (TurnedJob job.old a.now b.now table.old product.old budget) result (job.new, (table.new, product.new)) }
{
    nyuzolamba_turn(job, a, b, table, product, budget)
}
