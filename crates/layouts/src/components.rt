//! Components in octets.
ghost use Rattle.std.specs.Prelude.{◌≡◌, ◌<◌, ◌≤◌, length, drop, slice_index};
ghost use Rattle.terms.specs.Replies.{seen_as};
ghost use Rattle.rules.specs.Components.{type_of};
ghost use Rattle.rules.specs.Lists.{listed};
ghost use Rattle.rules.specs.Rules.{types_in};
ghost use Rattle.layouts.specs.Layout.{component_octets};
ghost use Rattle.layouts.specs.Reading.{size_of, value_from, clash, clashes, component_from, components_in};

use crate::memory::{InOctets, Measured};
use octets::{number_of, octets_of};
use rules::{Component, Components, Kind};
use terms::Refusal;

// How many octets the value has.
fn size_of(kind: Kind) -> usize
    ensures value { result ≡ size_of kind }
    ensures bound { result ≤ 17 }
{
    match kind {
        Kind::MatchAll => 0,
        Kind::Ipv4 => 8,
        Kind::Ipv6 => 17,
        Kind::Protocol => 1,
        Kind::Port => 2,
        Kind::PortRange => 4,
        Kind::SecurityIndex => 4,
        Kind::ServiceType => 2,
        Kind::FlowLabel => 3,
    }
}

fn value_from(kind: Kind, value: &[u8]) -> Component
    requires { length value.now ≡ size_of kind }
    ensures { result ≡ value_from kind value.now }
{
    match kind {
        Kind::MatchAll => Component::MatchAll,
        Kind::Ipv4 => Component::Ipv4 {
            address: number_of(&value[0..4]) as u32,
            mask: number_of(&value[4..8]) as u32,
        },
        Kind::Ipv6 => Component::Ipv6 {
            address: number_of(&value[0..16]),
            prefix: value[16],
        },
        Kind::Protocol => Component::Protocol { number: value[0] },
        Kind::Port => Component::Port {
            number: number_of(&value[0..2]) as u16,
        },
        Kind::PortRange => Component::PortRange {
            low: number_of(&value[0..2]) as u16,
            high: number_of(&value[2..4]) as u16,
        },
        Kind::SecurityIndex => Component::SecurityIndex {
            index: number_of(&value[0..4]) as u32,
        },
        Kind::ServiceType => Component::ServiceType {
            value: value[0],
            mask: value[1],
        },
        Kind::FlowLabel => Component::FlowLabel {
            label: number_of(&value[0..3]) as u32,
        },
    }
}

// Whether one more component of this kind may not stand behind these.
fn clashes_with(kind: Kind, before: &[Component]) -> bool
    ensures { result ≡ clashes (type_of kind) (types_in before.now) }
{
    before.iter().any(|other| clash_of(kind, other.kind()))
}

fn clash_of(left: Kind, right: Kind) -> bool
    ensures { result ≡ clash (type_of left) (type_of right) }
{
    left == right || left == Kind::MatchAll || right == Kind::MatchAll
}

// The component at the front of the octets, behind those read before.
fn read_component(before: &[Component], octets: &[u8]) -> Result<Component, Refusal>
    requires { 0 < length octets.now }
    ensures { result ≡ component_from (types_in before.now) (slice_index octets.now 0) (drop 1 octets.now) }
{
    let kind = Kind::try_from(octets[0])?;
    let size = size_of(kind);
    if octets.len() - 1 < size {
        return Err(Refusal::Frame);
    }
    if clashes_with(kind, before) {
        return Err(Refusal::Components);
    }
    let component = value_from(kind, &octets[1..1 + size]);
    if !component.is_allowed() {
        return Err(Refusal::Value);
    }
    Ok(component)
}

// All components of a rule.
pub(crate) fn read_components(octets: &[u8]) -> Result<Components, Refusal>
    ensures { seen_as listed result ≡ components_in octets.now }
{
    let mut found = Components::none();
    let mut rest = octets;
    while !rest.is_empty() {
        let component = read_component(found.as_slice(), rest)?;
        found.push(component)?;
        rest = &rest[1 + size_of(component.kind())..];
    }
    if found.as_slice().is_empty() {
        return Err(Refusal::Components);
    }
    Ok(found)
}

impl InOctets for Component {
    ghost octets = { component_octets };

    fn place(&self, memory: &mut [u8], at: usize) -> usize {
        let kind = u8::from(self.kind());
        match *self {
            Component::MatchAll => [kind].place(memory, at),
            Component::Ipv4 { address, mask } => {
                let address = octets_of::<4>(u128::from(address));
                let mask = octets_of::<4>(u128::from(mask));
                ([kind], (address, mask)).place(memory, at)
            }
            Component::Ipv6 { address, prefix } => {
                ([kind], (octets_of::<16>(address), [prefix])).place(memory, at)
            }
            Component::Protocol { number } => [kind, number].place(memory, at),
            Component::Port { number } => {
                ([kind], octets_of::<2>(u128::from(number))).place(memory, at)
            }
            Component::PortRange { low, high } => {
                let low = octets_of::<2>(u128::from(low));
                let high = octets_of::<2>(u128::from(high));
                ([kind], (low, high)).place(memory, at)
            }
            Component::SecurityIndex { index } => {
                ([kind], octets_of::<4>(u128::from(index))).place(memory, at)
            }
            Component::ServiceType { value, mask } => [kind, value, mask].place(memory, at),
            Component::FlowLabel { label } => {
                ([kind], octets_of::<3>(u128::from(label))).place(memory, at)
            }
        }
    }
}

impl Measured for Component {
    ghost most = { 18 };

    fn size(&self) -> usize {
        1 + size_of(self.kind())
    }
}
