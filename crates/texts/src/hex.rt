//! Octets as text: two upper-case hexadecimal digits for each.
ghost use Rattle.std.specs.Prelude.{◌≡◌, ◌/◌, ◌%◌, ◌<◌, ◌≤◌, true, ◌++◌, length, drop, Some};
ghost use Rattle.std.specs.Fmt.{WritesOnOk};
ghost use Rattle.texts.specs.Hexes.{hex_of, is_digit, all_digits, value, paired, ReadsHex};

use std::fmt;

/// Octets, which `{}` writes as text.
#[derive(Clone, Copy)]
pub struct Hex<'a>(pub &'a [u8]);

impl fmt::Display for Hex<'_> {
    ghost output = { λ x. Some (hex_of x.0.now) };

    fn fmt<W: fmt::Write>(&self, f: &mut fmt::Formatter<W>) -> fmt::Result {
        write_digits(f, self.0)
    }
}

// A function of its own: within `{}` it is not known that octets behind a field are below 256.
fn write_digits<W: fmt::Write>(f: &mut fmt::Formatter<W>, octets: &[u8]) -> fmt::Result
    ensures { WritesOnOk W.write_str_gives f.old result (hex_of octets.now) f.new }
{
    for octet in octets {
        write!(f, "{octet:02X}")?;
    }
    Ok(())
}

/// Why a text is not read.
#[derive(Clone, Copy, PartialEq, Eq, Debug)]
pub enum HexFault {
    /// it is not what any octets are written as
    NotHex,
    /// it stands for more octets than the memory has
    NoRoom,
}

/// Reads the octets that the text stands for into the front of the memory, and
/// gives their number.
pub fn read_hex(text: &[u8], memory: &mut [u8]) -> Result<usize, HexFault>
    ensures { ReadsHex text.now memory.old result memory.new }
{
    if text.len() % 2 != 0 || !is_hex(text) {
        return Err(HexFault::NotHex);
    }
    decode(text, memory)
}

// Reads digits in pairs.
fn decode(text: &[u8], memory: &mut [u8]) -> Result<usize, HexFault>
    requires even { length text.now % 2 ≡ 0 }
    requires digits { all_digits text.now ≡ true }
    ensures { ReadsHex text.now memory.old result memory.new }
{
    let count = text.len() / 2;
    if memory.len() < count {
        return Err(HexFault::NoRoom);
    }
    fill(memory, text);
    Ok(count)
}

fn is_hex(text: &[u8]) -> bool
    ensures { result ≡ all_digits text.now }
{
    text.iter().all(|c| is_digit(*c))
}

fn is_digit(c: u8) -> bool
    ensures { result ≡ is_digit c }
{
    matches!(c, b'0'..=b'9' | b'A'..=b'F')
}

// The first octets of the memory, each from two digits.
fn fill(memory: &mut [u8], text: &[u8])
    requires digits { all_digits text.now ≡ true }
    requires even { length text.now % 2 ≡ 0 }
    requires room { length text.now / 2 ≤ length memory.old }
    ensures { memory.new ≡ paired text.now ++ drop (length text.now / 2) memory.old }
{
    // the place by its number, since nothing is known afterwards of memory that
    // `iter_mut().zip(..)` lends
    for (i, pair) in text.chunks_exact(2).enumerate() {
        memory[i] = value_of(pair[0]) * 16 + value_of(pair[1]);
    }
}

// Of a digit alone; `to_digit` would take small letters too, and give an option.
fn value_of(c: u8) -> u8
    requires { is_digit c ≡ true }
    ensures value { result ≡ value c }
    ensures bound { result < 16 }
{
    if c < b'A' { c - b'0' } else { c - b'A' + 10 }
}
