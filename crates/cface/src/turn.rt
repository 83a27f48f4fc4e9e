// A turn: the next steps of a job's list, as many as the budget allows or until the list ends.
ghost use Rattle.std.specs.Prelude.{◌≡◌, length};
ghost use Rattle.requests.specs.Answers.{word, first};
ghost use Rattle.cface.specs.Turn.{turn_sizes, turn_face};

use super::limit::{both_within, misfit};
use super::record::{job_in, put_record};
use super::room::{MATRIX_WORDS, TABLE_WORDS, words_of};
use matrix::job::Job;
use matrix::turn::{turn, unwide};
use requests::{Reason, word};
use wordbytes::bytes::bytes_of;

// The tests of sizes, width and lengths, of a job whose record has the right length.
#[tactic(auto, using(crate::proofs::LimitLaws::both_limit_given), unfolding(crate::specs::Turn::turn_sizes, crate::specs::Record::unfit_record, requests::specs::Answers::first))]
fn judged(job: Job, a: &[u8], b: &[u8], table: &[u8], product: &[u8]) -> Result<(), Reason>
    ensures { word result ≡ first (turn_sizes job 56 (length a.now) (length b.now) (length table.now) (length product.now)) }
{
    let x = job.size_a();
    let y = job.size_b();
    both_within(x, y)?;
    if unwide(job.width) {
        return Err(Reason::WidthWrong);
    }
    if misfit(x, y, job.width, a, b, table, product) {
        return Err(Reason::LengthWrong);
    }
    Ok(())
}

fn answer(
    job: &mut [u8],
    a: &[u8],
    b: &[u8],
    table: &mut [u8],
    product: &mut [u8],
    budget: u32,
) -> Result<(), Reason>
    ensures { (word result, (job.new, (table.new, product.new))) ≡ turn_face job.old a.now b.now table.old product.old budget }
{
    let found = job_in(job)?;
    judged(found, a, b, table, product)?;
    let mut a_room = [0; MATRIX_WORDS];
    let mut b_room = [0; MATRIX_WORDS];
    let mut table_room = [0; TABLE_WORDS];
    let mut product_room = [0; MATRIX_WORDS];
    let a_words = words_of(a, &mut a_room);
    let b_words = words_of(b, &mut b_room);
    let table_words = words_of(table, &mut table_room);
    let product_words = words_of(product, &mut product_room);
    let turned = turn(found, a_words, b_words, table_words, product_words, budget)?;
    put_record(turned, job);
    bytes_of(table_words, table);
    bytes_of(product_words, product);
    Ok(())
}

pub fn nyuzolamba_turn(
    job: &mut [u8],
    a: &[u8],
    b: &[u8],
    table: &mut [u8],
    product: &mut [u8],
    budget: u32,
) -> u64
    ensures { (result, (job.new, (table.new, product.new))) ≡ turn_face job.old a.now b.now table.old product.old budget }
{
    word(answer(job, a, b, table, product, budget))
}
