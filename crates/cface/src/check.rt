// The legality check.
ghost use Rattle.std.specs.Prelude.{◌≡◌, length};
ghost use Rattle.requests.specs.Answers.{word, first};
ghost use Rattle.cface.specs.Check.{check_sizes, check_face};

use super::limit::{unfit, within};
use super::room::{MATRIX_WORDS, words_of};
use matrix::check::check;
use requests::{Reason, Size, word};

// The tests of size and length.
#[tactic(auto, using(crate::proofs::LimitLaws::limit_given), unfolding(crate::specs::Check::check_sizes, requests::specs::Answers::first))]
fn judged(s: Size, a: &[u8]) -> Result<(), Reason>
    ensures { word result ≡ first (check_sizes s (length a.now)) }
{
    within(s)?;
    if unfit(s, a) {
        return Err(Reason::LengthWrong);
    }
    Ok(())
}

fn answer(s: Size, a: &[u8]) -> Result<(), Reason>
    ensures { word result ≡ check_face s a.now }
{
    judged(s, a)?;
    let mut room = [0; MATRIX_WORDS];
    check(s, words_of(a, &mut room))
}

pub fn nyuzolamba_check(rows: u64, columns: u64, a: &[u8]) -> u64
    ensures { result ≡ check_face (record { rows = rows; columns = columns }) a.now }
{
    word(answer(Size { rows, columns }, a))
}
