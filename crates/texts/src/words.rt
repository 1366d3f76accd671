//! Rules in words. The types are those of the crate rules, so they are shown through a type of this one.
ghost use Rattle.std.specs.Prelude.{◌≡◌, Some};
ghost use Rattle.texts.specs.Words.{colon, groups, component_words, components_words, mode_words, functionality_words, rule_words};
ghost use Rattle.rules.specs.Rules.{rule_of};

use crate::hex::Hex;
use octets::octets_of;
use rules::{Component, Descriptor, Functionality, Mode, Rule};
use std::fmt;
use std::net::Ipv4Addr;

// The octets of an IPv6 address.
#[derive(Clone, Copy)]
struct Grouped([u8; 16]);

impl fmt::Display for Grouped {
    ghost output = { λ x. Some (groups 8 x.0) };

    fn fmt<W: fmt::Write>(&self, f: &mut fmt::Formatter<W>) -> fmt::Result {
        for (i, group) in self.0.chunks(2).enumerate() {
            write!(f, "{}{}", before_group(i), Hex(group))?;
        }
        Ok(())
    }
}

// A function of its own, so that the loop's proof has no case for the choice.
fn before_group(i: usize) -> &'static str
    ensures { result.now ≡ colon i }
{
    if i == 0 { "" } else { ":" }
}

/// Shows by `{}` a value that has no `{}` of its own.
#[derive(Clone, Copy)]
pub struct Words<T>(pub T);

impl fmt::Display for Words<Functionality> {
    ghost output = { λ x. Some (functionality_words x.0) };

    fn fmt<W: fmt::Write>(&self, f: &mut fmt::Formatter<W>) -> fmt::Result {
        match self.0 {
            Functionality::OnlyOne => f.write_str("the device's only functionality"),
            Functionality::Mptcp => f.write_str("MPTCP"),
            Functionality::AtsssLl => f.write_str("ATSSS-LL"),
        }
    }
}

impl fmt::Display for Words<Component> {
    ghost output = { λ x. Some (component_words x.0) };

    fn fmt<W: fmt::Write>(&self, f: &mut fmt::Formatter<W>) -> fmt::Result {
        match self.0 {
            Component::MatchAll => f.write_str("match all"),
            Component::Ipv4 { address, mask } => {
                write!(
                    f,
                    "IPv4 {} mask {}",
                    Ipv4Addr::from_bits(address),
                    Ipv4Addr::from_bits(mask)
                )
            }
            Component::Ipv6 { address, prefix } => {
                write!(f, "IPv6 {}/{prefix}", Grouped(octets_of::<16>(address)))
            }
            Component::Protocol { number } => write!(f, "protocol {number}"),
            Component::Port { number } => write!(f, "port {number}"),
            Component::PortRange { low, high } => write!(f, "ports {low} to {high}"),
            Component::SecurityIndex { index } => {
                write!(
                    f,
                    "security parameter index {}",
                    Hex(&octets_of::<4>(u128::from(index)))
                )
            }
            Component::ServiceType { value, mask } => {
                write!(f, "type of service {} mask {}", Hex(&[value]), Hex(&[mask]))
            }
            Component::FlowLabel { label } => {
                write!(f, "flow label {}", Hex(&octets_of::<3>(u128::from(label))))
            }
        }
    }
}

impl fmt::Display for Words<Mode> {
    ghost output = { λ x. Some (mode_words x.0) };

    fn fmt<W: fmt::Write>(&self, f: &mut fmt::Formatter<W>) -> fmt::Result {
        match self.0 {
            Mode::ActiveStandby {
                active,
                standby: true,
            } => write!(f, "active-standby, {active} with standby"),
            Mode::ActiveStandby {
                active,
                standby: false,
            } => write!(f, "active-standby, {active} alone"),
            Mode::SmallestDelay => f.write_str("smallest delay"),
            Mode::LoadBalancing { .. } => match self.0.share() {
                Some(share) => write!(f, "load balancing, {share} percent over 3GPP"),
                None => f.write_str("load balancing, no share"),
            },
            Mode::Priority { first } => write!(f, "priority based, {first} first"),
        }
    }
}

impl fmt::Display for Words<&Rule> {
    ghost output = { λ x. Some (rule_words (rule_of x.0.now)) };

    fn fmt<W: fmt::Write>(&self, f: &mut fmt::Formatter<W>) -> fmt::Result {
        let rule = self.0;
        let Descriptor {
            functionality,
            mode,
        } = rule.descriptor;
        write!(
            f,
            "precedence {}{}; {}; {}",
            rule.precedence,
            Words(rule.components.as_slice()),
            Words(mode),
            Words(functionality)
        )
    }
}

// Each component behind a comma.
impl fmt::Display for Words<&[Component]> {
    ghost output = { λ x. Some (components_words x.0.now) };

    #[tactic(auto, using(std::proofs::lemmas::Grind::put_two, crate::proofs::Wording::components_more))]
    fn fmt<W: fmt::Write>(&self, f: &mut fmt::Formatter<W>) -> fmt::Result {
        for component in self.0 {
            write!(f, ", {}", Words(*component))?;
        }
        Ok(())
    }
}
