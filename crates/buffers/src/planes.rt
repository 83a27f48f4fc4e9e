// How many words hold a plane of a row of c columns.
ghost use Rattle.std.specs.Prelude.{◌≡◌, ◌-◌, ◌*◌, ◌≤◌, min};
ghost use Rattle.buffers.specs.Buffer.{planes};

// By `div_ceil` the compiler does not see that there are at most sixteen: the check of 1,024 by 1,024 then takes 66,785 instructions, and so 62,656.
#[tactic(auto, unfolding(crate::specs::Buffer::planes))]
pub fn planes(c: usize) -> usize
    requires { c ≤ 1024 }
    ensures { result ≡ planes c }
{
    (c + 63) / 64
}

// How many places of word p of a plane are columns.
pub fn real(c: usize, p: usize) -> usize
    requires { (c ≤ 1024) × (64 * p ≤ c) }
    ensures { result ≡ min 64 (c - 64 * p) }
{
    (c - 64 * p).min(64)
}
