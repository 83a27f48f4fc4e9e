// A matrix plus a digit times another.
ghost use Rattle.std.specs.Prelude.{◌≡◌};
ghost use Rattle.requests.specs.Answers.{word};
ghost use Rattle.cface.specs.Combination.{combination_face};

use super::pair::judged;
use super::room::{MATRIX_WORDS, room_for, words_of};
use matrix::combination::combination;
use requests::{Reason, Size, word};
use wordbytes::bytes::bytes_of;

fn answer(x: Size, y: Size, digit: u64, a: &[u8], b: &[u8], out: &mut [u8]) -> Result<(), Reason>
    ensures { (word result, out.new) ≡ combination_face x y digit a.now b.now out.old }
{
    judged(x, y, digit, a, b, out)?;
    let mut a_room = [0; MATRIX_WORDS];
    let mut b_room = [0; MATRIX_WORDS];
    let mut out_room = [0; MATRIX_WORDS];
    let a_words = words_of(a, &mut a_room);
    let b_words = words_of(b, &mut b_room);
    let out_words = room_for(out, &mut out_room);
    combination(x, y, digit as u8, a_words, b_words, out_words)?;
    bytes_of(out_words, out);
    Ok(())
}

pub fn nyuzolamba_combination(
    a_rows: u64,
    a_columns: u64,
    b_rows: u64,
    b_columns: u64,
    digit: u64,
    a: &[u8],
    b: &[u8],
    out: &mut [u8],
) -> u64
    ensures { (result, out.new) ≡ combination_face (record { rows = a_rows; columns = a_columns }) (record { rows = b_rows; columns = b_columns }) digit a.now b.now out.old }
{
    let x = Size {
        rows: a_rows,
        columns: a_columns,
    };
    let y = Size {
        rows: b_rows,
        columns: b_columns,
    };
    word(answer(x, y, digit, a, b, out))
}
