//! How rules lie in octets: reading one, writing one and writing many.
#![tactic(auto)]

mod components;
mod descriptors;
pub mod memory;
pub mod precedences;
pub mod rule;

pub use memory::write_octets;
pub use precedences::Precedences;
pub use rule::{RuleRead, read_rule, rule_size, rules_size, write_rule, write_rules};
