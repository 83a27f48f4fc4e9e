// One hexadecimal digit: a byte's value, and a value's byte. Letters are small alone.
ghost use Rattle.std.specs.Prelude.{◌≡◌, ◌<◌, MatchOption};
ghost use Rattle.hexadecimal.specs.Digit.{digit_of, byte_of};

// The value of a byte, where it is a digit.
pub fn digit_of(b: u8) -> Option<u64>
    ensures { MatchOption result (digit_of b ≡ 16) (λ d. (d ≡ digit_of b) × (d < 16)) }
{
    match b {
        b'0'..=b'9' => Some(u64::from(b - b'0')),
        b'a'..=b'f' => Some(u64::from(b - b'a') + 10),
        _ => None,
    }
}

pub fn byte_of(d: u64) -> u8
    requires { d < 16 }
    ensures { result ≡ byte_of d }
{
    let d = d as u8;
    if d < 10 { b'0' + d } else { b'a' + (d - 10) }
}
