// The quote cannot be lower: the two requests, one after the other.
ghost use Rattle.std.specs.Prelude.{◌≡◌, Ok};
ghost use Rattle.requests.specs.Exact.{None};
ghost use Rattle.steps.specs.Count.{quote};
ghost use Rattle.matrix.specs.Job.{meant};
ghost use Rattle.matrix.specs.Quote.{quote_tests};
ghost use Rattle.matrix.specs.Witness.{witness_words};

use matrix::quote::quote;
use matrix::total::total;
use requests::{Reason, Size};

// A size and a width that can be quoted, and the witness: both are done, and the total is the quote.
pub fn quoted_and_counted(s: Size, width: u64, a: &[u64]) -> Result<(u64, u64), Reason>
    ensures { None (quote_tests s width) → a.now ≡ witness_words s → result ≡ Ok (quote s.rows s.columns (meant s width), quote s.rows s.columns (meant s width)) }
{
    let quoted = quote(s, width)?;
    let counted = total(s, width, a)?;
    Ok((quoted, counted))
}
