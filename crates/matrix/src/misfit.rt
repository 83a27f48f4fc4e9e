// The lengths of a job's buffers.
ghost use Rattle.std.specs.Prelude.{◌≡◌, ◌≤◌};
ghost use Rattle.matrix.specs.Misfit.{misfit};

use super::job::{product_size, table_size};
use requests::Size;
use requests::sizes::unfit;

// A buffer isn't of the exact length: A, B, table or product.
#[tactic(auto, unfolding(crate::specs::Misfit::misfit))]
pub fn misfit(
    x: Size,
    y: Size,
    width: u64,
    a: usize,
    b: usize,
    table: usize,
    product: usize,
) -> bool
    requires { width ≤ 8 }
    ensures { result ≡ misfit x y width a b table product }
{
    unfit(x, a)
        || unfit(y, b)
        || unfit(table_size(y, width), table)
        || unfit(product_size(x, y), product)
}
