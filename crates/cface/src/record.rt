// A job's record as a buffer of seven words.
ghost use Rattle.std.specs.Prelude.{◌≡◌, [], ◌∷◌, length};
ghost use Rattle.requests.specs.Answers.{told, answered};
ghost use Rattle.wordbytes.specs.Bytes.{words_in, bytes_of};
ghost use Rattle.matrix.specs.Opening.{no_job};
ghost use Rattle.matrix.specs.Record.{job_in, record_of};
ghost use Rattle.cface.specs.Record.{unfit_record};

use matrix::job::Job;
use matrix::turn::Turned;
use requests::Reason;
use wordbytes::bytes::{bytes_of, words_in};

// The bytes of a record: seven words.
pub const RECORD_BYTES: usize = 56;

// A record of another length is refused before it is read.
#[tactic(auto, unfolding(crate::specs::Record::unfit_record, matrix::specs::Record::job_in, requests::specs::Answers::first, requests::specs::Answers::answered, requests::specs::Answers::left))]
pub fn job_in(bytes: &[u8]) -> Result<Job, Reason>
    ensures { told no_job result ≡ answered ((unfit_record (length bytes.now), 4) ∷ []) no_job (job_in (words_in bytes.now)) }
{
    if bytes.len() != RECORD_BYTES {
        return Err(Reason::LengthWrong);
    }
    let mut words = [0; 7];
    words_in(bytes, &mut words);
    Ok(Job::from(words))
}

pub fn put_record(turned: Turned, bytes: &mut [u8])
    requires { length bytes.old ≡ 56 }
    ensures { bytes.new ≡ bytes_of (record_of turned.job turned.made turned.finished) }
{
    let words = <[u64; 7]>::from(turned);
    bytes_of(&words, bytes);
}
