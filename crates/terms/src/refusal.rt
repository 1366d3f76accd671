//! The numbered refusals.
ghost use Rattle.std.specs.Prelude.{◌≡◌, Some};
ghost use Rattle.terms.specs.Refusals.{number_of, words_of};

use std::fmt;

/// Why a call is refused. Each reason has a number, the same in every layer.
#[derive(Clone, Copy, Debug, PartialEq, Eq)]
pub enum Refusal {
    SheetSize = 1,
    RuleCount,
    Distance,
    Frame,
    ComponentType,
    Components,
    Value,
    Descriptor,
    Precedence,
    Surplus,
    Memory,
    NoPacket,
    NoRule,
    LineDown,
    Length,
    Limit,
    NoLine,
    Unknown,
    Delay,
    Request,
    Answer,
    AnswerTime,
    AnswersMissing,
}

impl Refusal {
    /// Its number. A method and no `From`, since every page names a refusal by its number, and
    /// a conversion would hide that word.
    pub fn number(self) -> u8
        ensures { result ≡ number_of self }
    {
        self as u8
    }
}

impl fmt::Display for Refusal {
    ghost output = { λ x. Some (words_of x) };

    fn fmt<W: fmt::Write>(&self, f: &mut fmt::Formatter<W>) -> fmt::Result {
        f.write_str(match self {
            Refusal::SheetSize => "a sheet has 3 to 16384 octets",
            Refusal::RuleCount => "a sheet has 1 to 128 rules",
            Refusal::Distance => "the distance leads past the first octet of the sheet",
            Refusal::Frame => "a rule, a component or a descriptor does not fit its place",
            Refusal::ComponentType => "unknown type of component",
            Refusal::Components =>
                "a rule has no component, a type twice, or match-all beside another",
            Refusal::Value => "the component's value is out of range",
            Refusal::Descriptor =>
                "the access descriptor has a wrong length, functionality, mode or information",
            Refusal::Precedence => "the precedence stands in an earlier rule",
            Refusal::Surplus => "octets are left over before the trailer",
            Refusal::Memory => "the memory is too short, or the sheet is over 16384 octets",
            Refusal::NoPacket => "the octets are no packet",
            Refusal::NoRule => "no rule in force matches the packet",
            Refusal::LineDown => "the line is down",
            Refusal::Length => "the length is 0 or over the longest",
            Refusal::Limit => "the limit is reached",
            Refusal::NoLine => "no line that the rule admits is able",
            Refusal::Unknown => "unknown code or position",
            Refusal::Delay => "the delay is too large",
            Refusal::Request => "the request number is above 63 or given before",
            Refusal::Answer => "another transaction, a request not sent, or one answered before",
            Refusal::AnswerTime => "the answer is before the start or too late",
            Refusal::AnswersMissing => "an answer is missing",
        })
    }
}
