//! Numbers as octets, the highest first.
ghost use Rattle.std.specs.Prelude.{◌≡◌, ◌%◌, ◌^◌, ◌<◌, ◌≤◌, length};
ghost use Rattle.std.specs.Int.Digits.{number_from_digits};
ghost use Rattle.octets.specs.Numbers.{be};

/// The number that the octets write; of more than 16 of them, that of the last 16.
pub fn number_of(octets: &[u8]) -> u128
    ensures value { result ≡ number_from_digits 256 octets.now % 2 ^ 128 }
    ensures exact { length octets.now ≤ 16 → result ≡ number_from_digits 256 octets.now }
    ensures bound { result < 256 ^ length octets.now }
{
    let mut number: u128 = 0;
    for octet in octets {
        number = number.wrapping_mul(256).wrapping_add(u128::from(*octet));
    }
    number
}

/// The last N octets of the number.
pub fn octets_of<const N: usize>(number: u128) -> [u8; N]
    ensures { result ≡ be N number }
{
    let mut octets = [0; N];
    let mut rest = number;
    // by index, since the invariant of a loop over `iter_mut().rev()` cannot speak of the array
    for i in (0..N).rev() {
        octets[i] = (rest % 256) as u8;
        rest /= 256;
    }
    octets
}
