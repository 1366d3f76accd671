//! Components: what a rule asks of a packet.
ghost use Rattle.std.specs.Prelude.{◌≡◌};
ghost use Rattle.terms.specs.Replies.{found_or};
ghost use Rattle.terms.specs.declared.refusal.Refusal.TheVariants as refusal;
ghost use Rattle.rules.specs.Components.{type_of, kind_of, kind_in, is_allowed, no_components};

use crate::at_most::{AtMost, Item};
use terms::Refusal;

/// The nine types of component, by the octets that name them in a sheet.
#[derive(Clone, Copy, PartialEq, Eq, Debug)]
pub enum Kind {
    MatchAll = 0x01,
    Ipv4 = 0x10,
    Ipv6 = 0x21,
    Protocol = 0x30,
    Port = 0x50,
    PortRange = 0x51,
    SecurityIndex = 0x60,
    ServiceType = 0x70,
    FlowLabel = 0x80,
}

/// A component, its type with its value.
#[derive(Clone, Copy, Debug, PartialEq, Eq)]
pub enum Component {
    MatchAll,
    Ipv4 { address: u32, mask: u32 },
    Ipv6 { address: u128, prefix: u8 },
    Protocol { number: u8 },
    Port { number: u16 },
    PortRange { low: u16, high: u16 },
    SecurityIndex { index: u32 },
    ServiceType { value: u8, mask: u8 },
    FlowLabel { label: u32 },
}

// The octet by which a sheet names the type.
impl From<Kind> for u8 {
    ghost from_gives = { λ kind code. code ≡ type_of kind };

    fn from(kind: Kind) -> u8 {
        kind as u8
    }
}

impl TryFrom<u8> for Kind {
    type Error = Refusal;

    ghost try_from_gives = { λ code r. r ≡ found_or (kind_of code) refusal.ComponentType };

    fn try_from(code: u8) -> Result<Kind, Refusal> {
        match code {
            0x01 => Ok(Kind::MatchAll),
            0x10 => Ok(Kind::Ipv4),
            0x21 => Ok(Kind::Ipv6),
            0x30 => Ok(Kind::Protocol),
            0x50 => Ok(Kind::Port),
            0x51 => Ok(Kind::PortRange),
            0x60 => Ok(Kind::SecurityIndex),
            0x70 => Ok(Kind::ServiceType),
            0x80 => Ok(Kind::FlowLabel),
            _ => Err(Refusal::ComponentType),
        }
    }
}

impl Component {
    /// Its type.
    pub fn kind(self) -> Kind
        ensures { result ≡ kind_in self }
    {
        match self {
            Component::MatchAll => Kind::MatchAll,
            Component::Ipv4 { .. } => Kind::Ipv4,
            Component::Ipv6 { .. } => Kind::Ipv6,
            Component::Protocol { .. } => Kind::Protocol,
            Component::Port { .. } => Kind::Port,
            Component::PortRange { .. } => Kind::PortRange,
            Component::SecurityIndex { .. } => Kind::SecurityIndex,
            Component::ServiceType { .. } => Kind::ServiceType,
            Component::FlowLabel { .. } => Kind::FlowLabel,
        }
    }

    /// Whether the value is one that a sheet may give.
    pub fn is_allowed(self) -> bool
        ensures { result ≡ is_allowed self }
    {
        match self {
            Component::Ipv6 { prefix, .. } => prefix <= 128,
            Component::PortRange { low, high } => low <= high,
            Component::FlowLabel { label } => label < 1 << 20,
            _ => true,
        }
    }
}

// How a ninth component is refused.
impl Item for Component {
    ghost FULL = { refusal.Components };

    const FULL: Refusal = Refusal::Components;
}

/// The most components that a rule has.
pub const MOST_COMPONENTS: usize = 8;

/// The components of a rule, in their order.
pub type Components = AtMost<Component, MOST_COMPONENTS>;

impl Components {
    /// No component; what stands in the places means nothing.
    pub fn none() -> Components
        ensures { result ≡ no_components }
    {
        Components {
            array: [Component::MatchAll; MOST_COMPONENTS],
            count: 0,
        }
    }
}
