// The width meant, and with it the table that an opening asks for.
ghost use Rattle.std.specs.Prelude.{◌≡◌};
ghost use Rattle.requests.specs.Answers.{word};
ghost use Rattle.cface.specs.Width.{width_face};

use super::count::put_count;
use super::limit::within;
use requests::{Reason, Size, word};

fn answer(x: Size, width: u64, out: &mut [u8]) -> Result<(), Reason>
    ensures { (word result, out.new) ≡ width_face x width out.old }
{
    within(x)?;
    let meant = matrix::width::width(x, width)?;
    put_count(meant, out)
}

pub fn nyuzolamba_width(a_rows: u64, a_columns: u64, width: u64, out: &mut [u8]) -> u64
    ensures { (result, out.new) ≡ width_face (record { rows = a_rows; columns = a_columns }) width out.old }
{
    let x = Size {
        rows: a_rows,
        columns: a_columns,
    };
    word(answer(x, width, out))
}
