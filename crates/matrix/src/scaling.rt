// A matrix times a digit.
ghost use Rattle.std.specs.Prelude.{◌≡◌, ◌≤◌, ◌<◌, length};
ghost use Rattle.buffers.specs.Buffer.{words};
ghost use Rattle.requests.specs.Answers.{word, first};
ghost use Rattle.matrix.specs.Scaling.{scaling_of, scaling_tests, scaling_means};

use super::by_row::by_row;
use requests::faults::fault;
use requests::sizes::{over, unfit};
use requests::{Buffer, Reason, Size};
use walk::factors::Packed;

#[tactic(auto, unfolding(crate::specs::Scaling::scaling_tests, requests::specs::Answers::first))]
fn judged(s: Size, d: u8, a: &[u64], n: usize) -> Result<(), Reason>
    ensures { word result ≡ first (scaling_tests s d a.now n) }
{
    if over(s) {
        return Err(Reason::TooLarge);
    }
    if unfit(s, a.len()) || unfit(s, n) {
        return Err(Reason::LengthWrong);
    }
    if d > 2 {
        return Err(Reason::ScaleWrong);
    }
    fault(Buffer::First, s, a)
}

fn scaling_rows(a: &Packed, d: u64, out: &mut [u64])
    requires { (d < 3) × (length out.old ≡ words a.now.rows a.now.columns) }
    ensures { out.new ≡ scaling_of d a.now.rows a.now.columns a.now.words.now }
{
    by_row(a.rows, a.columns, out, |out, q, x| {
        rows::scaling::scaling(out, a.words, q, x, x, d);
    });
}

pub fn scaling(s: Size, d: u8, a: &[u64], out: &mut [u64]) -> Result<(), Reason>
    ensures { (word result, out.new) ≡ scaling_means s d a.now out.old }
{
    judged(s, d, a, out.len())?;
    let packed = Packed::new(s.rows as usize, s.columns as usize, a);
    scaling_rows(&packed, u64::from(d), out);
    Ok(())
}
