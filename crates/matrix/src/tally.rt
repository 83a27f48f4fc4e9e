// The tally of a row, which is a matrix of one row.
ghost use Rattle.std.specs.Prelude.{◌≡◌};
ghost use Rattle.matrix.specs.Tally.{tally_told, tally_means};

use super::check::check;
use buffers::planes::planes;
use requests::{Reason, Size};

// Zeros, ones and twos, and whether all three are equally many.
#[derive(Clone, Copy, Debug, PartialEq, Eq)]
pub struct Tallied {
    pub counts: [u64; 3],
    pub balanced: bool,
}

pub fn tally(columns: u64, a: &[u64]) -> Result<Tallied, Reason>
    ensures { tally_told result ≡ tally_means columns a.now }
{
    check(Size { rows: 1, columns }, a)?;
    let c = columns as usize;
    let counts = rows::tally::tally(a, planes(c), c, 0);
    Ok(Tallied {
        counts,
        balanced: counts[0] == counts[1] && counts[1] == counts[2],
    })
}
