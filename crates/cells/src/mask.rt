// The lowest n places of a word.
ghost use Rattle.std.specs.Prelude.{◌≡◌, ◌-◌, ◌^◌, ◌<◌, ◌≤◌};

pub fn low(n: u64) -> u64
    requires { (0 < n) × (n ≤ 64) }
    ensures { result ≡ 2 ^ n - 1 }
{
    u64::MAX >> (64 - n)
}
