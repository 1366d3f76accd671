//! Reading a sheet and writing it again.
ghost use Rattle.terms.specs.Replies.{seen_as};
ghost use Rattle.sheets.specs.Sets.{heading_and_rules};
ghost use Rattle.sheets.specs.Writing.{Rewrites};

use crate::rule_set::reading::{SheetRead, read};
use crate::rule_set::writing::write;
use terms::Refusal;

/// Reads the octets as a sheet and writes it again into the front of the memory: the same octets.
pub fn rewrite(octets: &[u8], memory: &mut [u8]) -> Result<SheetRead, Refusal>
    ensures { Rewrites octets.now memory.old (seen_as heading_and_rules result) memory.new }
{
    let SheetRead { heading, rules } = read(octets)?;
    write(&rules, &octets[0..heading], memory)?;
    Ok(SheetRead { heading, rules })
}
