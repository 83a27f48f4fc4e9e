// Sizes: what is above 1,024, and how many words a matrix has.
ghost use Rattle.std.specs.Prelude.{◌≡◌, ◌||◌};
ghost use Rattle.requests.specs.Sizes.{exceeds, over, unfit};

use crate::Size;

// A count is above the limit.
pub fn exceeds(limit: u64, s: Size) -> bool
    ensures { result ≡ exceeds limit s }
{
    s.rows > limit || s.columns > limit
}

// .. above 1,024.
#[tactic(auto, unfolding(crate::specs::Sizes::over))]
pub fn over(s: Size) -> bool
    ensures { result ≡ over s }
{
    exceeds(1024, s)
}

pub fn either_over(x: Size, y: Size) -> bool
    ensures { result ≡ (over x || over y) }
{
    over(x) || over(y)
}

// n words are not a matrix's. A product that 64 bits don't hold is no buffer's length.
#[tactic(auto, unfolding(crate::specs::Sizes::unfit, buffers::specs::Buffer::words, buffers::specs::Buffer::wide, buffers::specs::Buffer::planes))]
pub fn unfit(s: Size, n: usize) -> bool
    ensures { result ≡ unfit s n }
{
    // Tried in u128: a combination of 6 to 27 rows of one word a plane takes 6 instructions a row less, but a turn up to 3.4 % more.
    s.rows.checked_mul(2 * s.columns.div_ceil(64)) != Some(n as u64)
}
