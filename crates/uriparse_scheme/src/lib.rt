//! The scheme of a URI: RFC 3986, section 3.1, and the table of registered schemes.
#![tactic(auto)]

pub mod internal;
pub mod laws;
pub mod scheme;
