// The two faults of a buffer of the right length: any stray sign comes before any padding bit. A legal buffer is read fast, and only where something is
// wrong is its place looked for.
ghost use Rattle.std.specs.Prelude.{◌≡◌, false, length};
ghost use Rattle.buffers.specs.Fault.{stray};
ghost use Rattle.requests.specs.Answers.{word, first};
ghost use Rattle.requests.specs.Sizes.{over, unfit};
ghost use Rattle.requests.specs.Faults.{faults, pair_faults};

use super::lent::{Lent, Padding, Stray};
use crate::{Buffer, Reason, Size};

// What is wrong with the cells of buffer n.
pub fn fault(n: Buffer, s: Size, a: &[u64]) -> Result<(), Reason>
    requires { (over s ≡ false) × (unfit s (length a.now) ≡ false) }
    ensures { word result ≡ first (faults n s a.now) }
{
    let lent = Lent {
        rows: s.rows as usize,
        columns: s.columns as usize,
        words: a,
    };
    let Some(from) = lent.suspect() else {
        return Ok(());
    };
    found(n, &lent, from)
}

// The same, by a row before which no sign is stray. A legal buffer does not come here.
fn found(n: Buffer, lent: &Lent, from: usize) -> Result<(), Reason>
    requires { stray from lent.now.columns lent.now.words.now ≡ false }
    ensures { word result ≡ first (faults n (record { rows = lent.now.rows; columns = lent.now.columns }) lent.now.words.now) }
{
    if let Some(row) = lent.first::<Stray>(from) {
        return Err(Reason::StraySign(lent.place::<Stray>(n, row)));
    }
    if let Some(row) = lent.first::<Padding>(0) {
        return Err(Reason::PaddingSet(lent.place::<Padding>(n, row)));
    }
    Ok(())
}

// The faults of two buffers, the first one's first.
pub fn either_fault(
    n: Buffer,
    m: Buffer,
    x: Size,
    y: Size,
    a: &[u64],
    b: &[u64],
) -> Result<(), Reason>
    requires { (over x ≡ false) × (over y ≡ false) × (unfit x (length a.now) ≡ false) × (unfit y (length b.now) ≡ false) }
    ensures { word result ≡ first (pair_faults n m x y a.now b.now) }
{
    fault(n, x, a)?;
    fault(m, y, b)
}
