// The size quote.
ghost use Rattle.std.specs.Prelude.{◌≡◌};
ghost use Rattle.requests.specs.Answers.{word};
ghost use Rattle.cface.specs.Quote.{quote_face};

use super::count::put_count;
use super::limit::within;
use requests::{Reason, Size, word};

fn answer(x: Size, width: u64, out: &mut [u8]) -> Result<(), Reason>
    ensures { (word result, out.new) ≡ quote_face x width out.old }
{
    within(x)?;
    let steps = matrix::quote::quote(x, width)?;
    put_count(steps, out)
}

pub fn nyuzolamba_quote(a_rows: u64, a_columns: u64, width: u64, out: &mut [u8]) -> u64
    ensures { (result, out.new) ≡ quote_face (record { rows = a_rows; columns = a_columns }) width out.old }
{
    let x = Size {
        rows: a_rows,
        columns: a_columns,
    };
    word(answer(x, width, out))
}
