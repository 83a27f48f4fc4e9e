// A turn, for C: what cface::turn answers.
ghost use Rattle.std.specs.Prelude.{◌≡◌};
ghost use Rattle.cface.specs.Turn.{turn_face};

#[unsafe(no_mangle)]
pub extern "C" fn nyuzolamba_turn(
    job: &mut [u8],
    a: &[u8],
    b: &[u8],
    table: &mut [u8],
    product: &mut [u8],
    budget: u32,
) -> u64
    ensures { (result, (job.new, (table.new, product.new))) ≡ turn_face job.old a.now b.now table.old product.old budget }
{
    cface::turn::nyuzolamba_turn(job, a, b, table, product, budget)
}
