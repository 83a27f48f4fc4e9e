// A matrix plus a digit times another: their sum by the digit 1, their difference by 2. By 0 it is the first, and the second is looked at all the same.
ghost use Rattle.std.specs.Prelude.{◌≡◌, ◌≤◌, ◌<◌, length};
ghost use Rattle.buffers.specs.Buffer.{words};
ghost use Rattle.requests.specs.Answers.{word};
ghost use Rattle.matrix.specs.Combination.{combination_of, combination_means};

use super::by_row::by_row;
use requests::pair::judged;
use requests::{Reason, Size};
use walk::factors::Packed;

fn combination_rows(a: &Packed, b: &Packed, d: u64, out: &mut [u64])
    requires { (b.now.rows ≡ a.now.rows) × (b.now.columns ≡ a.now.columns) × (d < 3) × (length out.old ≡ words a.now.rows a.now.columns) }
    ensures { out.new ≡ combination_of d a.now.rows a.now.columns a.now.words.now b.now.words.now }
{
    by_row(a.rows, a.columns, out, |out, q, x| {
        rows::combination::combination(out, a.words, b.words, q, x, x, x, d);
    });
}

pub fn combination(
    x: Size,
    y: Size,
    d: u8,
    a: &[u64],
    b: &[u64],
    out: &mut [u64],
) -> Result<(), Reason>
    ensures { (word result, out.new) ≡ combination_means x y d a.now b.now out.old }
{
    judged(x, y, d, a, b, out.len())?;
    let r = x.rows as usize;
    let c = x.columns as usize;
    combination_rows(
        &Packed::new(r, c, a),
        &Packed::new(r, c, b),
        u64::from(d),
        out,
    );
    Ok(())
}
