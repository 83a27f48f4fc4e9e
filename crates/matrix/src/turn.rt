// A turn: the next steps of a job's list, as many as the budget allows or until the list ends.
ghost use Rattle.std.specs.Prelude.{◌≡◌};
ghost use Rattle.requests.specs.Answers.{word, first};
ghost use Rattle.matrix.specs.Job.{unwide};
ghost use Rattle.matrix.specs.Record.{record_of};
ghost use Rattle.matrix.specs.Turn.{turned, found_tests, turn_means};

use super::job::{Job, product_size, table_size};
use super::misfit::misfit;
use requests::faults::either_fault;
use requests::sizes::either_over;
use requests::{Buffer, Reason};
use walk::Left;
use walk::factors::{Factors, Packed};

// A turn that is done: its record, the steps made and whether the list is finished.
#[derive(Clone, Copy, Debug, PartialEq, Eq)]
pub struct Turned {
    pub job: Job,
    pub made: u64,
    pub finished: bool,
}

// Its record of seven words.
#[tactic(auto, unfolding(crate::specs::Record::record_of))]
impl From<Turned> for [u64; 7] {
    ghost from_gives = { λ turned ws. ws ≡ record_of turned.job turned.made turned.finished };

    fn from(turned: Turned) -> [u64; 7] {
        let job = turned.job;
        [
            job.m,
            job.l,
            job.n,
            job.width,
            job.done,
            turned.made,
            u64::from(turned.finished),
        ]
    }
}

// In a turn a width is 1 to 8.
pub fn unwide(width: u64) -> bool
    ensures { result ≡ unwide width }
{
    width == 0 || width > 8
}

// The tests of sizes, width, lengths and cells.
#[tactic(auto, unfolding(crate::specs::Turn::found_tests, requests::specs::Answers::first))]
fn judged(job: Job, a: &[u64], b: &[u64], table: &[u64], product: &[u64]) -> Result<(), Reason>
    ensures { word result ≡ first (found_tests job a.now b.now table.now product.now) }
{
    let x = job.size_a();
    let y = job.size_b();
    if either_over(x, y) {
        return Err(Reason::TooLarge);
    }
    let width = job.width;
    if unwide(width) {
        return Err(Reason::WidthWrong);
    }
    if misfit(x, y, width, a.len(), b.len(), table.len(), product.len()) {
        return Err(Reason::LengthWrong);
    }
    either_fault(Buffer::First, Buffer::Second, x, y, a, b)?;
    let t = table_size(y, width);
    let p = product_size(x, y);
    either_fault(Buffer::Third, Buffer::Fourth, t, p, table, product)
}

pub fn turn(
    job: Job,
    a: &[u64],
    b: &[u64],
    table: &mut [u64],
    product: &mut [u64],
    budget: u32,
) -> Result<Turned, Reason>
    ensures { turned result table.new product.new ≡ turn_means job a.now b.now table.old product.old budget }
{
    judged(job, a, b, table, product)?;
    let factors = Factors {
        a: Packed::new(job.m as usize, job.l as usize, a),
        b: Packed::new(job.l as usize, job.n as usize, b),
        width: job.width as usize,
    };
    let at = factors.a.place(factors.width, job.done);
    if job.done > at.total {
        return Err(Reason::StepsExceed);
    }
    let made = u64::from(budget).min(at.total - job.done);
    let left = Left {
        skip: job.done - at.before,
        budget: made,
    };
    factors.blocks_part(table, product, at.block as usize, left);
    let done = job.done + made;
    Ok(Turned {
        job: Job { done, ..job },
        made,
        finished: done == at.total,
    })
}
