// What a host sees after a turn: the record as seven words, the last two the steps made and 1 if the list has ended, else 0, and table and product.
// A refused one has no record, and leaves the seven words as they were.
ghost use Rattle.requests.specs.Exact.{Seen};
ghost use Rattle.matrix.specs.Turn.{turn_tests};
ghost use Rattle.matrix.specs.Record.{job_in};
ghost use Rattle.wordcalls.specs.Turn.{TurnedJob};

use matrix::job::Job;

#[unsafe(no_mangle)]
pub extern "C" fn call_turn(
    job: &mut [u64; 7],
    a: &[u64],
    b: &[u64],
    table: &mut [u64],
    product: &mut [u64],
    budget: u32,
) -> u64
    ensures { Seen (turn_tests (job_in job.old) a.now b.now table.old product.old) (job.old, (table.old, product.old)) (TurnedJob (job_in job.old) a.now b.now table.old product.old budget) result (job.new, (table.new, product.new)) }
{
    let found = Job::from(*job);
    match matrix::turn::turn(found, a, b, table, product, budget) {
        Ok(turned) => {
            *job = <[u64; 7]>::from(turned);
            0
        }
        Err(why) => u64::from(why),
    }
}
