// The exact total: the length of the list of row steps.
ghost use Rattle.std.specs.Prelude.{◌≡◌};
ghost use Rattle.requests.specs.Answers.{word, told, first};
ghost use Rattle.matrix.specs.Total.{total_tests, total_means};

use super::meant::meant;
use requests::faults::fault;
use requests::sizes::unfit;
use requests::{Buffer, Reason, Size};
use walk::factors::Packed;

#[tactic(auto, unfolding(crate::specs::Total::total_tests, crate::specs::Quote::quote_tests, requests::specs::Answers::first))]
fn judged(x: Size, width: u64, a: &[u64]) -> Result<(), Reason>
    ensures { word result ≡ first (total_tests x width a.now) }
{
    super::quote::judged(x, width)?;
    if unfit(x, a.len()) {
        return Err(Reason::LengthWrong);
    }
    fault(Buffer::First, x, a)
}

pub fn total(x: Size, width: u64, a: &[u64]) -> Result<u64, Reason>
    ensures { told 0 result ≡ total_means x width a.now }
{
    judged(x, width, a)?;
    let k = meant(x, width) as usize;
    let packed = Packed::new(x.rows as usize, x.columns as usize, a);
    Ok(packed.place(k, 0).total)
}
