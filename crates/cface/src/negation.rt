// The negative of a matrix.
ghost use Rattle.std.specs.Prelude.{◌≡◌, length};
ghost use Rattle.requests.specs.Answers.{word, first};
ghost use Rattle.cface.specs.Negation.{negation_sizes, negation_face};

use super::limit::{unfit, within};
use super::room::{MATRIX_WORDS, room_for, words_of};
use matrix::negation::negation;
use requests::{Reason, Size, word};
use wordbytes::bytes::bytes_of;

// The tests of size and lengths.
#[tactic(auto, using(crate::proofs::LimitLaws::limit_given), unfolding(crate::specs::Negation::negation_sizes, requests::specs::Answers::first))]
fn judged(s: Size, a: &[u8], out: &[u8]) -> Result<(), Reason>
    ensures { word result ≡ first (negation_sizes s (length a.now) (length out.now)) }
{
    within(s)?;
    if unfit(s, a) || unfit(s, out) {
        return Err(Reason::LengthWrong);
    }
    Ok(())
}

fn answer(s: Size, a: &[u8], out: &mut [u8]) -> Result<(), Reason>
    ensures { (word result, out.new) ≡ negation_face s a.now out.old }
{
    judged(s, a, out)?;
    let mut a_room = [0; MATRIX_WORDS];
    let mut out_room = [0; MATRIX_WORDS];
    let a_words = words_of(a, &mut a_room);
    let out_words = room_for(out, &mut out_room);
    negation(s, a_words, out_words)?;
    bytes_of(out_words, out);
    Ok(())
}

pub fn nyuzolamba_negation(rows: u64, columns: u64, a: &[u8], out: &mut [u8]) -> u64
    ensures { (result, out.new) ≡ negation_face (record { rows = rows; columns = columns }) a.now out.old }
{
    word(answer(Size { rows, columns }, a, out))
}
