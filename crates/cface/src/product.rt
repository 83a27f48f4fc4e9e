// The whole product, with a table of its own at the default width.
ghost use Rattle.std.specs.Prelude.{◌≡◌, ◌^◌, ◌≤◌, length};
ghost use Rattle.buffers.specs.Buffer.{words};
ghost use Rattle.requests.specs.Answers.{word, first};
ghost use Rattle.cface.specs.Product.{product_sizes, product_face};

use super::limit::{both_within, unfit};
use super::room::{MATRIX_WORDS, room_for, words_of};
use buffers::planes::planes;
use matrix::job::product_size;
use matrix::product::product;
use matrix::width::width;
use requests::{Reason, Size, word};
use wordbytes::bytes::bytes_of;

// The most words of a table at a default width, which is at most 7 within the limit: 128 rows.
const OWN_TABLE_WORDS: usize = 256;

// The tests of sizes and lengths.
#[tactic(auto, using(crate::proofs::LimitLaws::both_limit_given), unfolding(crate::specs::Product::product_sizes, requests::specs::Answers::first))]
fn judged(x: Size, y: Size, a: &[u8], b: &[u8], out: &[u8]) -> Result<(), Reason>
    ensures { word result ≡ first (product_sizes x y (length a.now) (length b.now) (length out.now)) }
{
    both_within(x, y)?;
    if x.columns != y.rows {
        return Err(Reason::SizesDiffer);
    }
    if unfit(x, a) || unfit(y, b) || unfit(product_size(x, y), out) {
        return Err(Reason::LengthWrong);
    }
    Ok(())
}

// As much of the room as the table asks for at width k.
fn own_table<'r>(k: u64, y: Size, room: &'r mut [u64]) -> &'r mut [u64]
    requires { (k ≤ 7) × (y.columns ≤ 64) × (256 ≤ length room.old) }
    ensures { length result.now ≡ words (2 ^ k) y.columns }
{
    &mut room[..(1 << k) * (2 * planes(y.columns as usize))]
}

fn answer(x: Size, y: Size, a: &[u8], b: &[u8], out: &mut [u8]) -> Result<(), Reason>
    ensures { (word result, out.new) ≡ product_face x y a.now b.now out.old }
{
    judged(x, y, a, b, out)?;
    let k = width(x, 0)?;
    let mut a_room = [0; MATRIX_WORDS];
    let mut b_room = [0; MATRIX_WORDS];
    let mut table_room = [0; OWN_TABLE_WORDS];
    let mut out_room = [0; MATRIX_WORDS];
    let a_words = words_of(a, &mut a_room);
    let b_words = words_of(b, &mut b_room);
    let table = own_table(k, y, &mut table_room);
    let out_words = room_for(out, &mut out_room);
    product(x, y, k, a_words, b_words, table, out_words)?;
    bytes_of(out_words, out);
    Ok(())
}

pub fn nyuzolamba_product(
    a_rows: u64,
    a_columns: u64,
    b_rows: u64,
    b_columns: u64,
    a: &[u8],
    b: &[u8],
    product: &mut [u8],
) -> u64
    ensures { (result, product.new) ≡ product_face (record { rows = a_rows; columns = a_columns }) (record { rows = b_rows; columns = b_columns }) a.now b.now product.old }
{
    let x = Size {
        rows: a_rows,
        columns: a_columns,
    };
    let y = Size {
        rows: b_rows,
        columns: b_columns,
    };
    word(answer(x, y, a, b, product))
}
