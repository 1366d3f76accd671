//! Two values of one type, one for each access.
ghost use Rattle.std.specs.Prelude.{◌≡◌};
ghost use Rattle.terms.specs.Pairs.{at, put};

use crate::access::Access;

/// One value for each access.
#[derive(Clone, Copy, PartialEq, Eq, Debug)]
pub struct Pair<T> {
    /// of 3GPP
    pub first: T,
    /// of non-3GPP
    pub second: T,
}

impl<T> Pair<T> {
    /// The value for this access.
    pub fn at(&self, access: Access) -> &T
        ensures { result.now ≡ at self.now access }
    {
        match access {
            Access::ThreeGpp => &self.first,
            Access::NonThreeGpp => &self.second,
        }
    }

    /// Puts a value in the place of the one for this access.
    pub fn put(&mut self, access: Access, value: T)
    where
        T: Drop,
        ensures { self.new ≡ put self.old access value }
    {
        match access {
            Access::ThreeGpp => self.first = value,
            Access::NonThreeGpp => self.second = value,
        }
    }
}
