//! What the components of a URI share: tokens, classes and canonical spelling (RFC 3986, sections 2
//! and 6.2.2), the addresses that a host may be (3.2.2), and the components that are no more
//! than a text of one class: segment, query and fragment (3.3 to 3.5).
#![tactic(auto)]

pub mod address;
pub mod fragment;
pub mod internal;
pub mod laws;
pub mod link;
pub mod query;
pub mod segment;
