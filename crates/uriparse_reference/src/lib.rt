//! URI references: RFC 3986, section 4.1.
#![tactic(auto)]

pub mod internal;
pub mod laws;
pub mod uri_reference;
