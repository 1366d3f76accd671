//! The two accesses of a session, and their codes.
ghost use Rattle.std.specs.Prelude.{◌≡◌, Some};
ghost use Rattle.terms.specs.Accesses.{code_of, name_of, HasCode};

use crate::refusal::Refusal;
use std::fmt;

/// An access over which packets can go.
#[derive(Clone, Copy, PartialEq, Eq, Debug)]
pub enum Access {
    ThreeGpp = 1,
    NonThreeGpp = 2,
}

// Its code.
impl From<Access> for u8 {
    ghost from_gives = { λ access code. code ≡ code_of access };

    fn from(access: Access) -> u8 {
        access as u8
    }
}

// The access that has this code.
impl TryFrom<u8> for Access {
    type Error = Refusal;

    ghost try_from_gives = { HasCode };

    fn try_from(code: u8) -> Result<Access, Refusal> {
        match code {
            1 => Ok(Access::ThreeGpp),
            2 => Ok(Access::NonThreeGpp),
            _ => Err(Refusal::Unknown),
        }
    }
}

impl fmt::Display for Access {
    ghost output = { λ a. Some (name_of a) };

    fn fmt<W: fmt::Write>(&self, f: &mut fmt::Formatter<W>) -> fmt::Result {
        match self {
            Access::ThreeGpp => f.write_str("3GPP"),
            Access::NonThreeGpp => f.write_str("non-3GPP"),
        }
    }
}
