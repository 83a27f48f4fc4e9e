// Opens a job: its record, and zero in table and product.
ghost use Rattle.std.specs.Prelude.{◌≡◌, ℕ, length, get_or};
ghost use Rattle.requests.specs.Answers.{word, first};
ghost use Rattle.matrix.specs.Opening.{opened, opening_tests, opening_means};

use super::job::Job;
use super::meant::meant;
use super::misfit::misfit;
use requests::faults::either_fault;
use requests::sizes::either_over;
use requests::{Buffer, Reason, Size};

// The tests of sizes, width, lengths and cells; t and p are how many words table and product have.
#[tactic(auto, unfolding(crate::specs::Opening::opening_tests, requests::specs::Answers::first))]
pub fn judged(
    x: Size,
    y: Size,
    width: u64,
    a: &[u64],
    b: &[u64],
    t: usize,
    p: usize,
) -> Result<(), Reason>
    ensures { word result ≡ first (opening_tests x y width a.now b.now t p) }
{
    if either_over(x, y) {
        return Err(Reason::TooLarge);
    }
    if x.columns != y.rows {
        return Err(Reason::SizesDiffer);
    }
    if width > 8 {
        return Err(Reason::WidthWrong);
    }
    if misfit(x, y, meant(x, width), a.len(), b.len(), t, p) {
        return Err(Reason::LengthWrong);
    }
    either_fault(Buffer::First, Buffer::Second, x, y, a, b)
}

// Zero in a whole buffer: a function, since opening and product cite its clause.
pub fn zero(out: &mut [u64])
    ensures { (length out.new ≡ length out.old) × ((k : ℕ) → get_or out.new k 0 ≡ 0) }
{
    out.fill(0);
}

pub fn opening(
    x: Size,
    y: Size,
    width: u64,
    a: &[u64],
    b: &[u64],
    table: &mut [u64],
    product: &mut [u64],
) -> Result<Job, Reason>
    ensures { opened result table.new product.new ≡ opening_means x y width a.now b.now table.old product.old }
{
    judged(x, y, width, a, b, table.len(), product.len())?;
    zero(table);
    zero(product);
    Ok(Job {
        m: x.rows,
        l: x.columns,
        n: y.columns,
        width: meant(x, width),
        done: 0,
    })
}
