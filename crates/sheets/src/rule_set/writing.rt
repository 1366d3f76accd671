//! Writing a sheet.
ghost use Rattle.std.specs.Prelude.{◌≡◌, ◌+◌, ◌≤◌, length, take, IfOk, Ok};
ghost use Rattle.sheets.specs.Layout.{rules_octets, sheet_octets};
ghost use Rattle.layouts.specs.Memory.{Writes};
ghost use Rattle.sheets.specs.Reading.{sheet_from};
ghost use Rattle.sheets.specs.Sets.{rules_of};
ghost use Rattle.sheets.specs.Writing.{WritesSheet};

use crate::rule_set::RuleSet;
use crate::rule_set::reading::MOST_OCTETS;
use layouts::{rules_size, write_octets, write_rules};
use octets::octets_of;
use terms::Refusal;

/// Writes the sheet of the set under the heading into the front of the memory, and gives
/// its length.
pub fn write(set: &RuleSet, heading: &[u8], memory: &mut [u8]) -> Result<usize, Refusal>
    ensures value { WritesSheet heading.now (rules_of set.now) memory.old result memory.new }
    ensures back { IfOk result (λ n. sheet_from (take n memory.new) ≡ Ok (length heading.now, rules_of set.now)) }
{
    if heading.len() > MOST_OCTETS {
        return Err(Refusal::Memory);
    }
    let size = sheet_size(set, heading);
    if size > MOST_OCTETS || size > memory.len() {
        return Err(Refusal::Memory);
    }
    write_fitting(set, heading, memory)
}

// How many octets the rules have. What `layouts` promises of a list of rules, this and
// `place_rules` promise of what the rules say; within the calls of `layouts` that step would
// need an answer, and their edits would be refused there first.
fn size_of_rules(set: &RuleSet) -> usize
    ensures value { result ≡ length (rules_octets (rules_of set.now)) }
    ensures bound { result ≤ 19584 }
{
    rules_size(&set.table)
}

// Writes the rules from a place on, and gives the place behind them.
fn place_rules(set: &RuleSet, memory: &mut [u8], at: usize) -> Result<usize, Refusal>
    ensures { Writes at (rules_octets (rules_of set.now)) memory.old result memory.new }
{
    write_rules(&set.table, memory, at)
}

// How many octets the sheet has. Set and heading come as `write` is given them: a struct of
// both would be made there only to be taken apart here.
fn sheet_size(set: &RuleSet, heading: &[u8]) -> usize
    requires { length heading.now ≤ 16384 }
    ensures { result ≡ length (sheet_octets heading.now (rules_of set.now)) }
{
    heading.len() + size_of_rules(set) + 3
}

// Writes a sheet that fits.
fn write_fitting(set: &RuleSet, heading: &[u8], memory: &mut [u8]) -> Result<usize, Refusal>
    requires limit { length (sheet_octets heading.now (rules_of set.now)) ≤ 16384 }
    requires room { length (sheet_octets heading.now (rules_of set.now)) ≤ length memory.old }
    ensures value { WritesSheet heading.now (rules_of set.now) memory.old result memory.new }
    ensures back { IfOk result (λ n. sheet_from (take n memory.new) ≡ Ok (length heading.now, rules_of set.now)) }
{
    let at = write_octets(heading, memory, 0)?;
    let at = place_rules(set, memory, at)?;
    let [d0, d1] = octets_of::<2>(size_of_rules(set) as u128);
    write_octets(&[set.rules().len() as u8, d0, d1], memory, at)
}
