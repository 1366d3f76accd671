//! A rule: its precedence, its components and its access descriptor.
ghost use Rattle.std.specs.Prelude.{◌≡◌, ◌↔◌, IsTrue};
ghost use Rattle.std.specs.Cmp.{on_equiv, partial_equiv_from_equiv};
ghost use Rattle.std.specs.Ordering.{on};
ghost use Rattle.terms.specs.declared.refusal.Refusal.TheVariants.{RuleCount};
ghost use Rattle.rules.specs.Lists.{none_of};
ghost use Rattle.rules.specs.Rules.{empty_rule, rule_of, same_rule};
ghost use Rattle.rules.specs.Same.{same_rule_equiv};

use crate::at_most::{AtMost, Item};
use crate::component::{Component, Components, MOST_COMPONENTS};
use crate::descriptor::{Descriptor, Functionality, Mode};
use terms::Refusal;

/// A rule; the lower precedence goes first.
#[derive(Clone, Copy, Debug)]
pub struct Rule {
    pub precedence: u8,
    pub components: Components,
    pub descriptor: Descriptor,
}

// Rules are equal where they say the same. By hand, since a derive would compare the places
// behind the last component too, which say nothing; over an `==` of the list it would not,
// but it would have no clause that promises when it is true.
impl PartialEq for Rule {
    ghost eq = { on rule_of same_rule };

    ghost laws = { partial_equiv_from_equiv (on_equiv rule_of same_rule_equiv) };

    fn eq(&self, other: &Rule) -> bool
        ensures value { result ≡ same_rule (rule_of self.now) (rule_of other.now) }
        ensures decides { IsTrue result ↔ (rule_of self.now ≡ rule_of other.now) }
    {
        if self.precedence != other.precedence || self.descriptor != other.descriptor {
            return false;
        }
        self.components.as_slice() == other.components.as_slice()
    }
}

impl Eq for Rule {
    ghost laws = { on_equiv rule_of same_rule_equiv };
}

// How one rule too many is refused.
impl Item for Rule {
    ghost FULL = { RuleCount };

    const FULL: Refusal = Refusal::RuleCount;
}

/// The most rules that a sheet has.
pub const MOST_RULES: usize = 128;

/// The table of a sheet's rules, in their order.
pub type Rules = AtMost<Rule, MOST_RULES>;

// What stands in a place of the table that has no rule.
const EMPTY_RULE: Rule = Rule {
    precedence: 0,
    components: Components {
        array: [Component::MatchAll; MOST_COMPONENTS],
        count: 0,
    },
    descriptor: Descriptor {
        functionality: Functionality::OnlyOne,
        mode: Mode::SmallestDelay,
    },
};

impl Rules {
    /// No rule: the empty rule, repeated in each of the 128 places.
    pub fn none() -> Rules
        ensures { result ≡ none_of empty_rule }
    {
        Rules {
            array: [EMPTY_RULE; MOST_RULES],
            count: 0,
        }
    }
}
