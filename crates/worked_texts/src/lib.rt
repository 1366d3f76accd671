//! Worked examples that are run: text, commands with their answers, and the shared words.
#![tactic(auto)]

mod text;
mod words;
