// The program multiply without its reading and writing: a whole text in, a whole text out.
ghost use Rattle.std.specs.Prelude.{◌≡◌, ◌^◌, ◌≤◌, length, IfOk, MatchResult};
ghost use Rattle.buffers.specs.Buffer.{words, cell, encode};
ghost use Rattle.requests.specs.Answers.{reason_word, word, number_in, first};
ghost use Rattle.steps.specs.Matrix.{schoolbook};
ghost use Rattle.matrix.specs.Job.{meant, total_of};
ghost use Rattle.texts.specs.Multiply.{form_tests, product_tests, multiply_tests, multiply_means};
ghost use Rattle.texts.specs.Found.{Matrices};

use super::limit::Limited;
use super::read::matrix_in;
use super::write::{put_frames, refuse};
use matrix::product::product;
use matrix::total::total;
use matrix::width::width;
use requests::{Reason, number};

// A, then B, then the end of the text: their sizes.
fn matrices(
    text: &[u8],
    a: &mut [u64; 512],
    b: &mut [u64; 512],
) -> Result<(Limited, Limited), Reason>
    ensures reason { word result ≡ first (form_tests text.now) }
    ensures done { IfOk result (λ sizes. Matrices text.now sizes.0.size sizes.1.size a.new b.new) }
{
    let (x, second) = matrix_in(text, a)?;
    let (y, rest) = matrix_in(second, b)?;
    if !rest.is_empty() {
        return Err(Reason::NotAFrame);
    }
    Ok((x, y))
}

// How many words the table has at the default width: of at most 256 rows.
fn own_table(x: Limited, y: Limited) -> usize
    ensures { (result ≡ words (2 ^ meant x.size 0) y.size.columns) × (result ≤ 1024) }
{
    let width = width(x.size, 0).unwrap();
    (1usize << width) * y.wide()
}

// The product at width 0; the exact total.
fn made(
    x: Limited,
    y: Limited,
    a: &[u64],
    b: &[u64],
    table: &mut [u64],
    out: &mut [u64],
) -> Result<u64, Reason>
    requires { (length a.now ≡ words x.size.rows x.size.columns) × (length b.now ≡ words y.size.rows y.size.columns) × (length table.old ≡ words (2 ^ meant x.size 0) y.size.columns) × (length out.old ≡ words x.size.rows y.size.columns) }
    ensures reason { number_in (word result) ≡ first (product_tests x.size y.size a.now b.now) }
    ensures done { IfOk result (λ total. (total ≡ total_of x.size (meant x.size 0) a.now) × (out.new ≡ encode x.size.rows y.size.columns (schoolbook x.size.columns (cell x.size.columns a.now) (cell y.size.columns b.now)))) }
{
    product(x.size, y.size, 0, a, b, table, out)?;
    total(x.size, 0, a)
}

// The frames of the product and its total, where there is one, and how many bytes they are.
// No heap: room for the largest matrices within the limit, 512 words each, and a table of 1,024, of which the parts that are used are lent.
fn product_frames(
    text: &[u8],
    out: &mut [u8],
    a: &mut [u64; 512],
    b: &mut [u64; 512],
    table: &mut [u64; 1024],
    product: &mut [u64; 512],
) -> Result<usize, Reason>
    ensures { MatchResult result (λ n. (n, out.new) ≡ multiply_means text.now out.old) (λ r. (number_in (reason_word r) ≡ first (multiply_tests text.now)) × (out.new ≡ out.old)) }
{
    let (x, y) = matrices(text, a, b)?;
    let p = x.product(y);
    let table = &mut table[..own_table(x, y)];
    let product = &mut product[..p.long()];
    let total = made(x, y, &a[..x.long()], &b[..y.long()], table, product)?;
    Ok(put_frames(p, product, total, out))
}

// What the program prints for what it read, in the first bytes of a buffer, and how many they are: 0 where there is no room, as multiply_means has it.
pub fn multiply(text: &[u8], out: &mut [u8]) -> usize
    ensures { (result, out.new) ≡ multiply_means text.now out.old }
{
    let mut a = [0u64; 512];
    let mut b = [0u64; 512];
    let mut table = [0u64; 1024];
    let mut product = [0u64; 512];
    match product_frames(text, out, &mut a, &mut b, &mut table, &mut product) {
        Ok(n) => n,
        Err(reason) => refuse(number(Err::<(), Reason>(reason)), out),
    }
}
