//! Worked examples that are run: sheets and their edges, and what is written into memory.
#![tactic(auto)]

mod making;
mod reading;
mod writing;
