//! A sound set of rules.
ghost use Rattle.std.specs.Prelude.{◌≡◌, true};
ghost use Rattle.rules.specs.Rules.{sound};
ghost use Rattle.sheets.specs.Tables.{rules_in};

use rules::Rules;

pub mod parts;
pub mod reading;
pub mod rewriting;
pub mod writing;

/// 1 to 128 rules that go together. Each set that exists keeps what `sound` lists.
#[derive(Clone, Copy)]
pub struct RuleSet {
    table: Rules,
    ghost sound: { sound (rules_in table) ≡ true },
}
