// The negative of a matrix.
ghost use Rattle.std.specs.Prelude.{◌≡◌, length};
ghost use Rattle.buffers.specs.Buffer.{words};
ghost use Rattle.requests.specs.Answers.{word};
ghost use Rattle.matrix.specs.Negation.{negation_of, negation_means};

use super::by_row::by_row;
use requests::single::judged;
use requests::{Reason, Size};
use walk::factors::Packed;

fn negation_rows(a: &Packed, out: &mut [u64])
    requires { length out.old ≡ words a.now.rows a.now.columns }
    ensures { out.new ≡ negation_of a.now.rows a.now.columns a.now.words.now }
{
    by_row(a.rows, a.columns, out, |out, q, x| {
        rows::negation::negation(out, a.words, q, x, x);
    });
}

pub fn negation(s: Size, a: &[u64], out: &mut [u64]) -> Result<(), Reason>
    ensures { (word result, out.new) ≡ negation_means s a.now out.old }
{
    judged(s, s, a, out.len())?;
    let packed = Packed::new(s.rows as usize, s.columns as usize, a);
    negation_rows(&packed, out);
    Ok(())
}
