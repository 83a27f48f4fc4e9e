// A count as a buffer of one word.
ghost use Rattle.std.specs.Prelude.{◌≡◌, [], ◌∷◌, length};
ghost use Rattle.requests.specs.Answers.{word, answered};
ghost use Rattle.wordbytes.specs.Bytes.{bytes_of};
ghost use Rattle.cface.specs.Count.{unfit_count};

use requests::Reason;
use wordbytes::bytes::bytes_of;

// A buffer of another length is refused.
#[tactic(auto, unfolding(crate::specs::Count::unfit_count, requests::specs::Answers::first, requests::specs::Answers::answered, requests::specs::Answers::left))]
pub fn put_count(count: u64, out: &mut [u8]) -> Result<(), Reason>
    ensures { (word result, out.new) ≡ answered ((unfit_count (length out.old), 4) ∷ []) out.old (bytes_of (count ∷ [])) }
{
    if out.len() != 8 {
        return Err(Reason::LengthWrong);
    }
    bytes_of(&[count], out);
    Ok(())
}
