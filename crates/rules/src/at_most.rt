//! Lists of bounded length, in memory of a fixed size.
ghost use Rattle.std.specs.Prelude.{◌≡◌, ◌≤◌, length};
ghost use Rattle.rules.specs.Lists.{listed, Pushes};
ghost use Rattle.terms.specs.declared.refusal.Refusal.{Refusal as Refused};

use terms::{Refusal, front};

/// What an `AtMost` has to know of its items.
pub trait Item: Copy {
    // how one item too many is refused
    ghost FULL: { Refused };

    const FULL: Refusal;
}

/// At most N items in their order: the first `count` of the array, since nothing
/// that is read or kept here may need a heap.
#[derive(Clone, Copy, Debug)]
pub struct AtMost<T, const N: usize> {
    pub array: [T; N],
    pub count: usize,
}

impl<T, const N: usize> AtMost<T, N> {
    /// The items, in their order.
    pub fn as_slice(&self) -> &[T]
        ensures value { result.now ≡ listed self.now }
        ensures bound { length result.now ≤ N }
    {
        front(&self.array, self.count)
    }
}

impl<T: Item, const N: usize> AtMost<T, N> {
    /// One item more, behind the others.
    pub fn push(&mut self, item: T) -> Result<(), Refusal>
        ensures { Pushes T.FULL self.old item result self.new }
    {
        let count = self.as_slice().len();
        if count >= N {
            return Err(T::FULL);
        }
        self.array[count] = item;
        self.count = count + 1;
        Ok(())
    }
}
