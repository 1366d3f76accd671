//! One rule in octets, and rules one behind the other.
ghost use Rattle.std.specs.Prelude.{◌≡◌, ◌+◌, ◌≤◌, length, IfOk, Ok};
ghost use Rattle.terms.specs.Replies.{seen_as};
ghost use Rattle.rules.specs.Lists.{listed};
ghost use Rattle.rules.specs.Rules.{rule_of};
ghost use Rattle.layouts.specs.Layout.{rule_body, rule_octets};
ghost use Rattle.layouts.specs.Memory.{Writes};
ghost use Rattle.layouts.specs.Precedence.{has};
ghost use Rattle.layouts.specs.Reading.{frame_from, rule_from};
ghost use Rattle.layouts.specs.Rule.{frame_of, rule_and_size, octets_of_rules};

use crate::components::read_components;
use crate::descriptors::read_descriptor;
use crate::memory::{InOctets, Measured, size_of_all, write};
use crate::precedences::Precedences;
use octets::{number_of, octets_of};
use rules::{Rule, Rules};
use terms::Refusal;

// The frame of a rule: its precedence, how many octets its components have,
// and how many it has in all.
#[derive(Clone, Copy)]
struct Frame {
    precedence: u8,
    components: usize,
    size: usize,
}

fn read_frame(octets: &[u8]) -> Result<Frame, Refusal>
    ensures value { seen_as frame_of result ≡ frame_from octets.now }
    ensures inside { IfOk result (λ f. (5 + f.components ≤ f.size) × (f.size ≤ length octets.now)) }
{
    if octets.len() < 2 {
        return Err(Refusal::Frame);
    }
    let length = number_of(&octets[0..2]) as usize;
    if length < 3 || octets.len() < 2 + length {
        return Err(Refusal::Frame);
    }
    let components = number_of(&octets[3..5]) as usize;
    if length != components + 6 && length != components + 7 {
        return Err(Refusal::Frame);
    }
    Ok(Frame {
        precedence: octets[2],
        components,
        size: 2 + length,
    })
}

/// A rule, and how many octets it takes.
#[derive(Clone, Copy)]
pub struct RuleRead {
    pub rule: Rule,
    pub size: usize,
}

/// The rule at the front of the octets; its precedence may not be one of those met before.
pub fn read_rule(octets: &[u8], met: &Precedences) -> Result<RuleRead, Refusal>
    ensures value { seen_as rule_and_size result ≡ rule_from (has met.now) octets.now }
    ensures inside { IfOk result (λ x. x.size ≤ length octets.now) }
{
    let frame = read_frame(octets)?;
    read_framed(frame, octets, met)
}

// The rule that this frame holds.
fn read_framed(frame: Frame, octets: &[u8], met: &Precedences) -> Result<RuleRead, Refusal>
    requires framed { frame_from octets.now ≡ Ok (frame_of frame) }
    requires inside { (5 + frame.components ≤ frame.size) × (frame.size ≤ length octets.now) }
    ensures value { seen_as rule_and_size result ≡ rule_from (has met.now) octets.now }
    ensures inside { IfOk result (λ x. x.size ≤ length octets.now) }
{
    let Frame {
        precedence,
        components: length,
        size,
    } = frame;
    let end = 5 + length;
    let components = read_components(&octets[5..end])?;
    let descriptor = read_descriptor(&octets[end..size])?;
    if met.contains(precedence) {
        return Err(Refusal::Precedence);
    }
    let rule = Rule {
        precedence,
        components,
        descriptor,
    };
    Ok(RuleRead { rule, size })
}

/// How many octets the rule has.
pub fn rule_size(rule: &Rule) -> usize
    ensures value { result ≡ length (rule_octets (rule_of rule.now)) }
    ensures bound { result ≤ 153 }
{
    2 + body_size(rule)
}

// How many octets follow the rule's length.
fn body_size(rule: &Rule) -> usize
    ensures value { result ≡ length (rule_body (rule_of rule.now)) }
    ensures bound { result ≤ 151 }
{
    3 + size_of_all(rule.components.as_slice()) + rule.descriptor.size()
}

impl InOctets for Rule {
    ghost octets = { λ rule. rule_octets (rule_of rule) };

    fn place(&self, memory: &mut [u8], at: usize) -> usize {
        let [b0, b1] = octets_of::<2>(body_size(self) as u128);
        let [s0, s1] = octets_of::<2>(size_of_all(self.components.as_slice()) as u128);
        let head = [b0, b1, self.precedence, s0, s1];
        (head, (self.components, self.descriptor)).place(memory, at)
    }
}

impl Measured for Rule {
    ghost most = { 153 };

    fn size(&self) -> usize {
        rule_size(self)
    }
}

impl Measured for Rules {
    ghost most = { 19584 };

    fn size(&self) -> usize {
        size_of_all(self.as_slice())
    }
}

/// Writes the rule into the memory from a place on, and gives the place behind it.
pub fn write_rule(rule: &Rule, memory: &mut [u8], at: usize) -> Result<usize, Refusal>
    ensures { Writes at (rule_octets (rule_of rule.now)) memory.old result memory.new }
{
    write(rule, memory, at)
}

/// How many octets the rules have.
pub fn rules_size(rules: &Rules) -> usize
    ensures value { result ≡ length (octets_of_rules (listed rules.now)) }
    ensures bound { result ≤ 19584 }
{
    rules.size()
}

/// Writes the rules into the memory from a place on, and gives the place behind them.
pub fn write_rules(rules: &Rules, memory: &mut [u8], at: usize) -> Result<usize, Refusal>
    ensures { Writes at (octets_of_rules (listed rules.now)) memory.old result memory.new }
{
    write(rules, memory, at)
}
