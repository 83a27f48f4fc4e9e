// The C face's limit, and lengths in bytes.
ghost use Rattle.std.specs.Prelude.{◌≡◌, ◌≤◌, length};
ghost use Rattle.requests.specs.Answers.{word, first};
ghost use Rattle.cface.specs.Limit.{above, limit_tests, both_limit_tests, unfit_bytes, misfit_bytes};

use matrix::job::{product_size, table_size};
use requests::sizes::{either_over, exceeds, over};
use requests::{Reason, Size};

// A count is above 64.
#[tactic(auto, unfolding(crate::specs::Limit::above))]
fn above(s: Size) -> bool
    ensures { result ≡ above s }
{
    exceeds(64, s)
}

// The tests of one size alone.
#[tactic(auto, unfolding(requests::specs::Answers::first))]
pub fn within(s: Size) -> Result<(), Reason>
    ensures { word result ≡ first (limit_tests s) }
{
    if over(s) {
        return Err(Reason::TooLarge);
    }
    if above(s) {
        return Err(Reason::AboveLimit);
    }
    Ok(())
}

// The tests of two sizes alone.
#[tactic(auto, unfolding(requests::specs::Answers::first))]
pub fn both_within(x: Size, y: Size) -> Result<(), Reason>
    ensures { word result ≡ first (both_limit_tests x y) }
{
    if either_over(x, y) {
        return Err(Reason::TooLarge);
    }
    if above(x) || above(y) {
        return Err(Reason::AboveLimit);
    }
    Ok(())
}

// The bytes are not as many as a matrix's: eight for each of its words. By the library's test of words, of an eighth of the bytes, an opening of 64 by 64
// costs 6,641 instructions where this takes 6,557.
#[tactic(auto, unfolding(crate::specs::Limit::unfit_bytes, buffers::specs::Buffer::words, buffers::specs::Buffer::wide, buffers::specs::Buffer::planes))]
pub fn unfit(s: Size, bytes: &[u8]) -> bool
    ensures { result ≡ unfit_bytes s (length bytes.now) }
{
    s.rows.checked_mul(16 * s.columns.div_ceil(64)) != Some(bytes.len() as u64)
}

// A buffer of a job isn't of the exact length: A, B, table or product. The buffers stay parameters of their own, as C hands them in: a struct of them would
// be made and taken apart in both of its uses. Crate matrix has the same test of words; by it four remainders would come first.
#[tactic(auto, unfolding(crate::specs::Limit::misfit_bytes))]
pub fn misfit(
    x: Size,
    y: Size,
    width: u64,
    a: &[u8],
    b: &[u8],
    table: &[u8],
    product: &[u8],
) -> bool
    requires { width ≤ 8 }
    ensures { result ≡ misfit_bytes x y width (length a.now) (length b.now) (length table.now) (length product.now) }
{
    unfit(x, a)
        || unfit(y, b)
        || unfit(table_size(y, width), table)
        || unfit(product_size(x, y), product)
}
