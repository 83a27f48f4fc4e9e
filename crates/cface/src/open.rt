// Opens a job: its record, and zero in table and product.
ghost use Rattle.std.specs.Prelude.{◌≡◌, length, IfOk};
ghost use Rattle.requests.specs.Answers.{word, first};
ghost use Rattle.matrix.specs.Job.{meant};
ghost use Rattle.cface.specs.Open.{open_sizes, open_face};

use super::limit::{both_within, misfit};
use super::record::{RECORD_BYTES, put_record};
use super::room::{MATRIX_WORDS, TABLE_WORDS, room_for, words_of};
use matrix::opening::opening;
use matrix::turn::Turned;
use requests::{Reason, Size, word};
use wordbytes::bytes::bytes_of;

// The tests of sizes, width and lengths; done, it gives the width meant, which the library then need not look for again.
#[tactic(auto, using(crate::proofs::LimitLaws::both_limit_given), unfolding(crate::specs::Open::open_sizes, crate::specs::Record::unfit_record, requests::specs::Answers::first))]
fn judged(
    x: Size,
    y: Size,
    width: u64,
    job: &[u8],
    a: &[u8],
    b: &[u8],
    table: &[u8],
    product: &[u8],
) -> Result<u64, Reason>
    ensures tested { word result ≡ first (open_sizes x y width (length job.now) (length a.now) (length b.now) (length table.now) (length product.now)) }
    ensures width { IfOk result (λ w. w ≡ meant x width) }
{
    if job.len() != RECORD_BYTES {
        return Err(Reason::LengthWrong);
    }
    both_within(x, y)?;
    if x.columns != y.rows {
        return Err(Reason::SizesDiffer);
    }
    let meant = matrix::width::width(x, width)?;
    if misfit(x, y, meant, a, b, table, product) {
        return Err(Reason::LengthWrong);
    }
    Ok(meant)
}

fn answer(
    x: Size,
    y: Size,
    width: u64,
    job: &mut [u8],
    a: &[u8],
    b: &[u8],
    table: &mut [u8],
    product: &mut [u8],
) -> Result<(), Reason>
    ensures { (word result, (job.new, (table.new, product.new))) ≡ open_face x y width job.old a.now b.now table.old product.old }
{
    let meant = judged(x, y, width, job, a, b, table, product)?;
    let mut a_room = [0; MATRIX_WORDS];
    let mut b_room = [0; MATRIX_WORDS];
    let mut table_room = [0; TABLE_WORDS];
    let mut product_room = [0; MATRIX_WORDS];
    let a_words = words_of(a, &mut a_room);
    let b_words = words_of(b, &mut b_room);
    let table_words = room_for(table, &mut table_room);
    let product_words = room_for(product, &mut product_room);
    let new = opening(x, y, meant, a_words, b_words, table_words, product_words)?;
    let opened = Turned {
        job: new,
        made: 0,
        finished: false,
    };
    put_record(opened, job);
    bytes_of(table_words, table);
    bytes_of(product_words, product);
    Ok(())
}

pub fn nyuzolamba_open(
    a_rows: u64,
    a_columns: u64,
    b_rows: u64,
    b_columns: u64,
    width: u64,
    job: &mut [u8],
    a: &[u8],
    b: &[u8],
    table: &mut [u8],
    product: &mut [u8],
) -> u64
    ensures { (result, (job.new, (table.new, product.new))) ≡ open_face (record { rows = a_rows; columns = a_columns }) (record { rows = b_rows; columns = b_columns }) width job.old a.now b.now table.old product.old }
{
    let x = Size {
        rows: a_rows,
        columns: a_columns,
    };
    let y = Size {
        rows: b_rows,
        columns: b_columns,
    };
    word(answer(x, y, width, job, a, b, table, product))
}
