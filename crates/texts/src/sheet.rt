//! Sheets in words.
ghost use Rattle.std.specs.Prelude.{map, Some};
ghost use Rattle.rules.specs.Rules.{rule_of};
ghost use Rattle.texts.specs.Sheets.{rows_from, sheet_words};

use crate::hex::Hex;
use crate::words::Words;
use rules::Rule;
use std::fmt;

// What `{}` writes of a sheet that was read and written again.
#[derive(Clone, Copy)]
pub(crate) struct SheetWords<'a> {
    pub heading: &'a [u8],
    pub rules: &'a [Rule],
    pub written: &'a [u8],
}

impl fmt::Display for SheetWords<'_> {
    ghost output = { λ x. Some (sheet_words x.heading.now (map rule_of x.rules.now) x.written.now) };

    fn fmt<W: fmt::Write>(&self, f: &mut fmt::Formatter<W>) -> fmt::Result {
        write!(
            f,
            "ok\n heading [{}], length {}\n{} written back [{}], the same octets",
            Hex(self.heading),
            self.heading.len(),
            Words(self.rules),
            Hex(self.written)
        )
    }
}

// A row for each rule, with its position.
impl fmt::Display for Words<&[Rule]> {
    ghost output = { λ x. Some (rows_from 0 (map rule_of x.0.now)) };

    fn fmt<W: fmt::Write>(&self, f: &mut fmt::Formatter<W>) -> fmt::Result {
        for (i, rule) in self.0.iter().enumerate() {
            writeln!(f, " rule {i}: {}", Words(rule))?;
        }
        Ok(())
    }
}
