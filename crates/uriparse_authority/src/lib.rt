//! Authorities: RFC 3986, section 3.2.
#![tactic(auto)]

pub mod authority;
pub mod internal;
pub mod laws;
