//! Carrying out a command: its answer as a value, with no memory from an allocator.
ghost use Rattle.std.specs.Prelude.{◌≡◌, map, Some, Ok, Err};
ghost use Rattle.rules.specs.Rules.{rule_of};
ghost use Rattle.texts.specs.Answers.{Answers, told_of, told_words, fault_told, written_in, heading_written, rules_found};
ghost use Rattle.texts.specs.declared.answer.NotAccepted.TheVariants.{Refused};

use crate::command::{CommandFault, read_command};
use crate::hex::HexFault;
use crate::sheet::SheetWords;
use crate::words::Words;
use rules::{AtMost, Rule};
use sheets::{MOST_OCTETS, SheetRead, rewrite};
use std::fmt;
use terms::{Refusal, front};

/// An accepted sheet: what it was read as, and its octets as they were written again. It is
/// made by `carry_out` alone, which promises that they are the octets handed in.
#[derive(Clone, Copy)]
pub struct Accepted {
    found: SheetRead,
    written: AtMost<u8, MOST_OCTETS>,
}

impl Accepted {
    /// The octets that were written.
    pub fn octets(&self) -> &[u8]
        ensures { result.now ≡ written_in self.now }
    {
        self.written.as_slice()
    }

    /// Those of the heading.
    pub fn heading(&self) -> &[u8]
        ensures { result.now ≡ heading_written self.now }
    {
        front(self.octets(), self.found.heading)
    }

    /// The rules, in the order of the sheet.
    pub fn rules(&self) -> &[Rule]
        ensures { map rule_of result.now ≡ rules_found self.now }
    {
        self.found.rules.rules()
    }
}

// What `{}` writes is the sheet in words.
impl fmt::Display for Accepted {
    ghost output = { λ x. Some (told_words (told_of (Ok x))) };

    fn fmt<W: fmt::Write>(&self, f: &mut fmt::Formatter<W>) -> fmt::Result {
        let words = SheetWords {
            heading: self.heading(),
            rules: self.rules(),
            written: self.octets(),
        };
        write!(f, "{words}")
    }
}

/// Why no sheet is accepted.
#[derive(Clone, Copy, PartialEq, Eq, Debug)]
pub enum NotAccepted {
    Refused(Refusal),
    /// the text hands in no octets
    NoHex,
    /// the text does not begin as a command does
    NoCommand,
}

impl From<CommandFault> for NotAccepted {
    ghost from_gives = { λ fault e. told_of (Err e) ≡ fault_told fault };

    fn from(fault: CommandFault) -> NotAccepted {
        match fault {
            CommandFault::NoCommand => NotAccepted::NoCommand,
            CommandFault::Hex(HexFault::NotHex) => NotAccepted::NoHex,
            CommandFault::Hex(HexFault::NoRoom) => NotAccepted::Refused(Refusal::SheetSize),
        }
    }
}

impl From<Refusal> for NotAccepted {
    ghost from_gives = { λ cause e. e ≡ Refused cause };

    fn from(cause: Refusal) -> NotAccepted {
        NotAccepted::Refused(cause)
    }
}

impl fmt::Display for NotAccepted {
    ghost output = { λ x. Some (told_words (told_of (Err x))) };

    fn fmt<W: fmt::Write>(&self, f: &mut fmt::Formatter<W>) -> fmt::Result {
        match self {
            NotAccepted::Refused(refusal) => write!(f, "no {} {refusal}", refusal.number()),
            NotAccepted::NoHex => f.write_str(
                "no hex: two of the digits 0-9 and A-F for each octet, one octet or more",
            ),
            NotAccepted::NoCommand => f.write_str("no command: S, one space and a sheet in hex"),
        }
    }
}

// What `{}` writes of an answer.
impl fmt::Display for Words<Result<Accepted, NotAccepted>> {
    ghost output = { λ x. Some (told_words (told_of x.0)) };

    fn fmt<W: fmt::Write>(&self, f: &mut fmt::Formatter<W>) -> fmt::Result {
        match &self.0 {
            Ok(accepted) => write!(f, "{accepted}"),
            Err(fault) => write!(f, "{fault}"),
        }
    }
}

/// Carries out a command.
pub fn carry_out(text: &[u8]) -> Result<Accepted, NotAccepted>
    ensures { Answers text.now (told_of result) }
{
    let mut octets = [0; MOST_OCTETS];
    carry_out_in(text, &mut octets)
}

// Carries out a command, with memory for as many octets as a sheet has.
fn carry_out_in(text: &[u8], memory: &mut [u8; MOST_OCTETS]) -> Result<Accepted, NotAccepted>
    ensures { Answers text.now (told_of result) }
{
    let size = read_command(text, memory)?;
    let mut array = [0; MOST_OCTETS];
    let found = rewrite(&memory[..size], &mut array)?;
    let written = AtMost { array, count: size };
    Ok(Accepted { found, written })
}
