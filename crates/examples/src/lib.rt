//! Small users of URIs: a cookbook, a test of links by host, a link rewriter, queries without tracking
//! parameters, a redirect checker, two schema stores, an identifier registry and a check of a proxy's
//! target.
//!
//! Each depends on `uriparse` alone, and four on `thiserror` for their errors. The contract of each
//! says in its user's words what it does. They serve as examples: copy what fits.
#![tactic(auto)]

pub mod cookbook;
pub mod hosts;
pub mod links;
pub mod proxy;
pub mod queries;
pub mod redirects;
pub mod registry;
pub mod schema_store;
pub mod schemas;
pub mod trusted;
