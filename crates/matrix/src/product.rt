// The whole product as one request: an opening, and then every step of the list.
ghost use Rattle.std.specs.Prelude.{◌≡◌, ◌^◌, length};
ghost use Rattle.buffers.specs.Buffer.{words, encode};
ghost use Rattle.requests.specs.Answers.{word};
ghost use Rattle.matrix.specs.Product.{ended, product_means};

use super::meant::meant;
use super::opening::{judged, zero};
use requests::{Reason, Size};
use walk::factors::{Factors, Packed};

// Every step of the list, from the opening.
fn multiplied(factors: &Factors, table: &mut [u64], product: &mut [u64])
    requires { (length table.old ≡ words (2 ^ factors.now.width) factors.now.b.columns) × (length product.old ≡ words factors.now.a.rows factors.now.b.columns) }
    ensures { (table.new ≡ encode (2 ^ factors.now.width) factors.now.b.columns (ended factors.now).table)
        × (product.new ≡ encode factors.now.a.rows factors.now.b.columns (ended factors.now).product) }
{
    zero(table);
    zero(product);
    factors.blocks_all(table, product);
}

pub fn product(
    x: Size,
    y: Size,
    width: u64,
    a: &[u64],
    b: &[u64],
    table: &mut [u64],
    product: &mut [u64],
) -> Result<(), Reason>
    ensures { (word result, (table.new, product.new)) ≡ product_means x y width a.now b.now table.old product.old }
{
    judged(x, y, width, a, b, table.len(), product.len())?;
    let factors = Factors {
        a: Packed::new(x.rows as usize, x.columns as usize, a),
        b: Packed::new(x.columns as usize, y.columns as usize, b),
        width: meant(x, width) as usize,
    };
    multiplied(&factors, table, product);
    Ok(())
}
