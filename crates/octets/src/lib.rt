//! Numbers as octets, the highest first.
#![tactic(auto)]

pub mod number;

pub use number::{number_of, octets_of};
