//! Text: octets in hexadecimal, rules in words, and commands with their answers.
#![tactic(auto)]

pub mod answer;
pub mod command;
pub mod hex;
mod sheet;
pub mod words;

pub use answer::{Accepted, NotAccepted, carry_out};
pub use command::{CommandFault, read_command};
pub use hex::{Hex, HexFault, read_hex};
pub use words::Words;
