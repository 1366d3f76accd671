//! Sheets of steering rules: read, kept as sound sets, and written.
#![tactic(auto)]

pub mod rule_set;

pub use rule_set::RuleSet;
pub use rule_set::reading::{MOST_OCTETS, SheetRead, read};
pub use rule_set::rewriting::rewrite;
pub use rule_set::writing::write;
