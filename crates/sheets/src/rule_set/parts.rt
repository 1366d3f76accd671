//! The rules of a set.
ghost use Rattle.std.specs.Prelude.{◌≡◌, ◌≤◌, ◌↔◌, map, length, Decides, IsTrue};
ghost use Rattle.std.specs.Cmp.{on_equiv, partial_equiv_from_equiv};
ghost use Rattle.std.specs.Cmp.Lexicographic.{lists_equiv, pointwise};
ghost use Rattle.std.specs.Ordering.{on};
ghost use Rattle.rules.specs.Rules.{rule_of, same_rule};
ghost use Rattle.rules.specs.Same.{same_rule_equiv};
ghost use Rattle.sheets.specs.Sets.{rules_of, At};

use crate::rule_set::RuleSet;
use rules::Rule;
use terms::Refusal;

impl RuleSet {
    /// In the order of the sheet.
    pub fn rules(&self) -> &[Rule]
        ensures value { map rule_of result.now ≡ rules_of self.now }
        ensures bound { length result.now ≤ 128 }
    {
        self.table.as_slice()
    }

    /// The rule at a position, counted from 0.
    pub fn rule(&self, position: usize) -> Result<&Rule, Refusal>
        ensures { At (rules_of self.now) position result }
    {
        self.rules().get(position).ok_or(Refusal::Unknown)
    }
}

fn say_the_same(left: &[Rule], right: &[Rule]) -> bool
    ensures value { result ≡ pointwise same_rule (map rule_of left.now) (map rule_of right.now) }
    ensures decides { Decides result (map rule_of left.now ≡ map rule_of right.now) }
{
    left == right
}

// Sets are equal where they say the same rules in the same order. By hand, since a derive
// would compare the places behind the last rule too, which say nothing, or would have no
// clause that promises this.
impl PartialEq for RuleSet {
    ghost eq = { on rules_of (pointwise same_rule) };

    ghost laws = { partial_equiv_from_equiv (on_equiv rules_of (lists_equiv same_rule_equiv)) };

    fn eq(&self, other: &RuleSet) -> bool
        ensures value { result ≡ pointwise same_rule (rules_of self.now) (rules_of other.now) }
        ensures decides { IsTrue result ↔ (rules_of self.now ≡ rules_of other.now) }
    {
        say_the_same(self.rules(), other.rules())
    }
}

impl Eq for RuleSet {
    ghost laws = { on_equiv rules_of (lists_equiv same_rule_equiv) };
}
