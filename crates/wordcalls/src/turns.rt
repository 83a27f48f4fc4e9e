// A job that is opened and given one turn after another, a budget each, with nothing else between them. A refused turn would end it: the contract says
// that there is none.
ghost use Rattle.std.specs.Prelude.{length};
ghost use Rattle.requests.specs.Exact.{Seen};
ghost use Rattle.steps.specs.Turn.{all_budgets};
ghost use Rattle.matrix.specs.Job.{meant};
ghost use Rattle.matrix.specs.Opening.{opening_tests, no_job, opened};
ghost use Rattle.wordcalls.specs.Turns.{Reached};

use matrix::job::Job;
use matrix::opening::opening;
use matrix::turn::turn;
use requests::{Reason, Size};

pub fn in_turns(
    x: Size,
    y: Size,
    width: u64,
    a: &[u64],
    b: &[u64],
    table: &mut [u64],
    product: &mut [u64],
    budgets: &[u32],
) -> Result<Job, Reason>
    ensures { Seen (opening_tests x y width a.now b.now (length table.old) (length product.old)) (no_job, (table.old, product.old)) (Reached x y (meant x width) a.now b.now (all_budgets budgets.now)) (opened result table.new product.new).0 (opened result table.new product.new).1 }
{
    let mut job = opening(x, y, width, a, b, table, product)?;
    for &budget in budgets {
        job = turn(job, a, b, table, product, budget)?.job;
    }
    Ok(job)
}
