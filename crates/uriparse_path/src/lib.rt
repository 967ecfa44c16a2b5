//! Paths and their segments: RFC 3986, section 3.3.
#![tactic(auto)]

pub mod internal;
pub mod laws;
pub mod path;
