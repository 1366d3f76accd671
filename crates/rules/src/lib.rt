//! Steering rules: the components that a packet is matched with, the access
//! descriptor, and a rule of both with its precedence.
#![tactic(auto)]

pub mod at_most;
pub mod component;
pub mod descriptor;
pub mod equality;
pub mod rule;

pub use at_most::{AtMost, Item};
pub use component::{Component, Components, Kind, MOST_COMPONENTS};
pub use descriptor::{Descriptor, Functionality, Mode};
pub use equality::equality_is_exact;
pub use rule::{MOST_RULES, Rule, Rules};
