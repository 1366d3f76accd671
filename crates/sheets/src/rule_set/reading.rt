//! Reading a sheet.
ghost use Rattle.std.specs.Prelude.{◌≡◌, ◌≤◌, [], length};
ghost use Rattle.terms.specs.Replies.{seen_as};
ghost use Rattle.sheets.specs.Law.{Lawful};
ghost use Rattle.sheets.specs.Reading.{rules_from, distance_in, sheet_from};
ghost use Rattle.sheets.specs.Sets.{heading_and_rules};
ghost use Rattle.sheets.specs.Tables.{rules_in};

use crate::rule_set::RuleSet;
use layouts::{Precedences, RuleRead, read_rule};
use octets::number_of;
use rules::{MOST_RULES, Rules};
use terms::Refusal;

// `count` rules, and nothing behind them.
fn read_rules(octets: &[u8], count: usize) -> Result<Rules, Refusal>
    requires { count ≤ 128 }
    ensures { seen_as rules_in result ≡ rules_from count [] octets.now }
{
    let mut rules = Rules::none();
    let mut met = Precedences::none();
    let mut rest = octets;
    for _ in 0..count {
        let RuleRead { rule, size } = read_rule(rest, &met)?;
        met.insert(rule.precedence);
        rules.push(rule)?;
        rest = &rest[size..];
    }
    if !rest.is_empty() {
        return Err(Refusal::Surplus);
    }
    Ok(rules)
}

/// The most octets that a sheet has.
pub const MOST_OCTETS: usize = 16384;

/// A sheet that was read: how many octets its heading has, and its rules.
#[derive(Clone, Copy)]
pub struct SheetRead {
    pub heading: usize,
    pub rules: RuleSet,
}

/// Reads the octets as a sheet.
#[tactic(auto, using(crate::proofs::Trips::lawful))]
pub fn read(octets: &[u8]) -> Result<SheetRead, Refusal>
    ensures value { seen_as heading_and_rules result ≡ sheet_from octets.now }
    ensures law { Lawful octets.now (seen_as heading_and_rules result) }
{
    if octets.len() < 3 || octets.len() > MOST_OCTETS {
        return Err(Refusal::SheetSize);
    }
    read_within(octets)
}

// The sheet in as many octets as a sheet may have.
fn read_within(octets: &[u8]) -> Result<SheetRead, Refusal>
    requires least { 3 ≤ length octets.now }
    requires most { length octets.now ≤ 16384 }
    ensures { seen_as heading_and_rules result ≡ sheet_from octets.now }
{
    let trailer = octets.len() - 3;
    let count = usize::from(octets[trailer]);
    if count == 0 || count > MOST_RULES {
        return Err(Refusal::RuleCount);
    }
    let distance = distance_in(octets);
    if trailer < distance {
        return Err(Refusal::Distance);
    }
    let heading = trailer - distance;
    let table = read_rules(&octets[heading..trailer], count)?;
    Ok(SheetRead {
        heading,
        rules: RuleSet { table },
    })
}

fn distance_in(octets: &[u8]) -> usize
    requires { 2 ≤ length octets.now }
    ensures { result ≡ distance_in octets.now }
{
    number_of(&octets[octets.len() - 2..]) as usize
}
