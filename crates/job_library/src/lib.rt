//! The jobs of the program `jobs` that need no commands, and what all its jobs make their texts and
//! digests with.
//!
//! They are a library, so they are proved beside `uri_commands`, which one job of the program needs.
#![tactic(auto)]

pub mod awkward;
pub mod buffers;
pub mod digest;
pub mod edits;
pub mod error;
pub mod languages;
mod letters;
pub mod links;
pub mod make;
pub mod random;
pub mod registry;
pub mod requests;
pub mod store;
pub mod texts;
