// What the lines share: whether all is digits, the number that some digits say, and a line of digits written.
ghost use Rattle.std.specs.Prelude.{◌≡◌, ◌++◌, ◌∷◌, [], ℕ, ◌+◌, ◌≤◌, ◌<◌, length, get_or};
ghost use Rattle.hexadecimal.specs.Digit.{digit_of};
ghost use Rattle.hexadecimal.specs.Line.{hex_of, value_of, undigit, unframed};

use super::digit::{byte_of, digit_of};

// One of the bytes is no digit.
pub fn undigit(bytes: &[u8]) -> bool
    ensures { result ≡ undigit bytes.now (length bytes.now) }
{
    bytes.iter().any(|b| digit_of(*b).is_none())
}

// The line is not exactly n digits and then byte 10.
pub fn unframed(line: &[u8], n: usize) -> bool
    requires { n ≤ 512 }
    ensures { result ≡ unframed line.now n }
{
    line.len() != n + 1 || undigit(&line[..n]) || line[n] != b'\n'
}

// The number that the digits say.
pub fn value(digits: &[u8]) -> u64
    requires { (length digits.now ≤ 16) × ((k : ℕ) → k < length digits.now → digit_of (get_or digits.now k 0) < 16) }
    ensures { result ≡ value_of digits.now 0 (length digits.now) }
{
    let mut v: u64 = 0;
    for b in digits {
        v = 16 * v + digit_of(*b).unwrap();
    }
    v
}

// The n digits of v, and byte 10. The line has n + 1 bytes; n stands beside it since a call that says how many digits it writes is plainer.
pub fn put(v: u64, n: usize, line: &mut [u8])
    requires { (n ≤ 16) × (length line.old ≡ n + 1) }
    ensures { line.new ≡ hex_of n v ++ (10 ∷ []) }
{
    for k in 0..n {
        line[k] = byte_of((v >> (4 * (n - 1 - k))) % 16);
    }
    line[n] = b'\n';
}
