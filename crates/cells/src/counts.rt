// Zeros, ones and twos in the places of a mask, by counts of set bits.
ghost use Rattle.std.specs.Prelude.{◌≡◌, [], ◌∷◌};
ghost use Rattle.cells.specs.Counts.{count};
ghost use Rattle.cells.specs.Pair.{Good};

use crate::Cells;

pub fn counts(x: Cells, mask: u64) -> [u64; 3]
    requires { Good x }
    ensures { result ≡ count 0 x.unit x.sign mask ∷ count 1 x.unit x.sign mask ∷ count 2 x.unit x.sign mask ∷ [] }
{
    let zeros = u64::from((mask & (mask ^ x.unit)).count_ones());
    let ones = u64::from((mask & (x.unit ^ x.sign)).count_ones());
    let twos = u64::from((mask & x.sign).count_ones());
    [zeros, ones, twos]
}
