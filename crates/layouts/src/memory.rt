//! Octets written into memory.
ghost use Rattle.std.specs.Prelude.{◌≡◌, ℕ, ◌+◌, ◌-◌, ◌*◌, ◌^◌, ◌<◌, ◌≤◌, List, ◌++◌, length};
ghost use Rattle.std.specs.List.{flat_map};
ghost use Rattle.rules.specs.Lists.{listed};
ghost use Rattle.layouts.specs.Memory.{written, Writes};

use rules::AtMost;
use terms::Refusal;

// What is written as octets.
pub(crate) trait InOctets {
    // the octets, in their order
    ghost octets: { Self → List ℕ };

    // Writes them into memory from a place on, and gives the place behind them.
    // Memory and place are two parameters, as in the public calls: a struct of both
    // would only add its fields to every clause.
    fn place(&self, memory: &mut [u8], at: usize) -> usize
        requires { at + length (octets self.now) ≤ length memory.old }
        ensures value { result ≡ at + length (octets self.now) }
        ensures after { memory.new ≡ written at (octets self.now) memory.old };
}

impl InOctets for &[u8] {
    ghost octets = { λ octets. octets.now };

    fn place(&self, memory: &mut [u8], at: usize) -> usize {
        let end = at + self.len();
        memory[at..end].copy_from_slice(self);
        end
    }
}

impl<const N: usize> InOctets for [u8; N] {
    ghost octets = { λ octets. octets };

    fn place(&self, memory: &mut [u8], at: usize) -> usize {
        self.as_slice().place(memory, at)
    }
}

// One behind the other.
impl<A: InOctets, B: InOctets> InOctets for (A, B) {
    ghost octets = { λ both. A.octets both.0 ++ B.octets both.1 };

    fn place(&self, memory: &mut [u8], at: usize) -> usize {
        let at = self.0.place(memory, at);
        self.1.place(memory, at)
    }
}

// One behind the other, as many as there are.
impl<T: InOctets, const N: usize> InOctets for AtMost<T, N> {
    ghost octets = { λ items. flat_map T.octets (listed items) };

    fn place(&self, memory: &mut [u8], at: usize) -> usize {
        // a loop, since after a `fold` nothing is known of the memory that its closure writes
        let mut end = at;
        for item in self.as_slice() {
            end = item.place(memory, end);
        }
        end
    }
}

// What knows how many octets it has.
pub(crate) trait Measured: InOctets {
    // the most that it can have
    ghost most: { ℕ };

    fn size(&self) -> usize
        ensures value { result ≡ length (Self.octets self.now) }
        ensures bound { result ≤ most };
}

impl Measured for &[u8] {
    ghost most = { 2 ^ 64 - 1 };

    fn size(&self) -> usize {
        self.len()
    }
}

// How many octets all of them have.
pub(crate) fn size_of_all<T: Measured>(items: &[T]) -> usize
    requires { T.most * length items.now < 2 ^ 64 }
    ensures value { result ≡ length (flat_map T.octets items.now) }
    ensures bound { result ≤ T.most * length items.now }
{
    // a loop, since `sum` asks beforehand that all fit, and an item tells only its own bound
    let mut size = 0;
    for item in items {
        size += item.size();
    }
    size
}

// Writes it into the memory from a place on, all of it or nothing, and gives the place behind it.
pub(crate) fn write<T: Measured>(item: &T, memory: &mut [u8], at: usize) -> Result<usize, Refusal>
    ensures { Writes at (T.octets item.now) memory.old result memory.new }
{
    if at > memory.len() || memory.len() - at < item.size() {
        return Err(Refusal::Memory);
    }
    Ok(item.place(memory, at))
}

/// Writes the octets into the memory from a place on, and gives the place behind them.
pub fn write_octets(octets: &[u8], memory: &mut [u8], at: usize) -> Result<usize, Refusal>
    ensures { Writes at octets.now memory.old result memory.new }
{
    write(&octets, memory, at)
}
