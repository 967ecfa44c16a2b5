//! What runs rows of inputs and expected results, for tests.
//!
//! A row is `COMMAND WORD.. -> ANSWER`. A word in quotes may be empty and may have spaces; an empty
//! answer is written as two quotes. Each layer of a library has a text of rows, one short function
//! a command, and one `match` that finds it.
#![tactic(auto)]

pub mod answer;
mod ask;
pub mod authorities;
pub mod same;
pub mod written;

pub use ask::{Layer, wrong_rows};
