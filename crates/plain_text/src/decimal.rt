//! A number in decimal, in an array of the longest number's length: it takes no memory.
ghost use Rattle.std.specs.Prelude.{◌≡◌, ◌≤◌, drop, decimal};

/// Puts the digits of a number at the end of the array, and answers where they begin.
pub fn decimal_digits(n: u64, digits: &mut [u8; 20]) -> usize
    ensures within { result ≤ 20 }
    ensures digits { drop result digits.new ≡ decimal n }
{
    let mut rest = n;
    let mut start = 20;
    while rest >= 10 {
        start -= 1;
        digits[start] = b'0' + (rest % 10) as u8;
        rest /= 10;
    }
    start -= 1;
    digits[start] = b'0' + rest as u8;
    start
}
