// The place of a number's lowest set bit, and the number without it.
ghost use Rattle.std.specs.Prelude.{ℕ, ◌<◌};
ghost use Rattle.cells.specs.Lowest.{Peels};

#[derive(Clone, Copy)]
pub struct Peeled {
    pub at: u32,
    pub rest: u64,
}

pub fn lowest(x: u64) -> Peeled
    requires { 0 < x }
    ensures { Peels 64 x result.at result.rest }
{
    // The back end counts for 0 too: a table step of one word a plane takes 26 instructions where it took 25. Tried with a test for 0: 28.
    Peeled {
        at: x.trailing_zeros(),
        rest: x & (x - 1),
    }
}
