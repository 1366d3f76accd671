//! Access descriptors: which functionality steers, and in which mode.
ghost use Rattle.std.specs.Prelude.{◌≡◌};
ghost use Rattle.terms.specs.Replies.{found_or};
ghost use Rattle.terms.specs.declared.refusal.Refusal.TheVariants as refusal;
ghost use Rattle.rules.specs.Descriptors.{functionality_code, functionality_from, share};

use terms::{Access, Refusal};

/// What steers the packets.
#[derive(Clone, Copy, PartialEq, Eq, Debug)]
pub enum Functionality {
    /// the only one that the device has
    OnlyOne = 1,
    Mptcp = 2,
    AtsssLl = 3,
}

// The octet by which a sheet names it.
impl From<Functionality> for u8 {
    ghost from_gives = { λ functionality code. code ≡ functionality_code functionality };

    fn from(functionality: Functionality) -> u8 {
        functionality as u8
    }
}

impl TryFrom<u8> for Functionality {
    type Error = Refusal;

    ghost try_from_gives = { λ code r. r ≡ found_or (functionality_from code) refusal.Descriptor };

    fn try_from(code: u8) -> Result<Functionality, Refusal> {
        match code {
            1 => Ok(Functionality::OnlyOne),
            2 => Ok(Functionality::Mptcp),
            3 => Ok(Functionality::AtsssLl),
            _ => Err(Refusal::Descriptor),
        }
    }
}

/// How the packets are steered, with the mode's information.
#[derive(Clone, Copy, PartialEq, Eq, Debug)]
pub enum Mode {
    ActiveStandby { active: Access, standby: bool },
    SmallestDelay,
    LoadBalancing { k: u8 },
    Priority { first: Access },
}

impl Mode {
    /// The percentage of a rule's octets that 3GPP is to carry, where the mode splits.
    pub fn share(self) -> Option<u8>
        ensures { result ≡ share self }
    {
        match self {
            Mode::LoadBalancing { k: k @ 1..=11 } => Some(110 - 10 * k),
            Mode::Priority { .. } => Some(50),
            _ => None,
        }
    }
}

/// An access descriptor.
#[derive(Clone, Copy, Debug, PartialEq, Eq)]
pub struct Descriptor {
    pub functionality: Functionality,
    pub mode: Mode,
}
