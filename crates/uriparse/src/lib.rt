//! URIs, relative references and URI references: RFC 3986.
//!
//! Each component has a module, with its types and its errors. The main ones are re-exported here;
//! `RegisteredScheme`, `MicrosoftScheme`, `UnregisteredSchemeError`, `parse_port`, `MAX_SEGMENTS`
//! and the kinds of texts, references and paths are only in their modules.
//!
//! Some types are aliases of a more general one, whose docs list their calls: [`Query`],
//! [`Fragment`], [`Segment`], [`Username`] and [`Password`] are each a [`Text`], [`Path`] is a
//! [`PathOf`], [`URI`] and [`RelativeReference`] are each a [`ReferenceOf`], their builders a [`BuilderOf`],
//! their views a [`ViewOf`], and their owned texts a [`TextOf`]. A function over all texts takes a `Text<'_, K>` of any
//! `K: TextKind`.
#![tactic(auto)]

mod builder_of;
mod change_of;
pub mod file;
mod kind;
pub mod laws;
mod order;
pub mod place_key;
mod reference_of;
pub mod relative_reference;
pub mod sort_key;
mod text_of;
pub mod uri;
mod view_of;

pub use builder_of::BuilderOf;
pub use change_of::KindChangeError;
pub use place_key::{
    base_prefix_into, base_prefix_to_string, domain_prefix_into, domain_prefix_to_string,
    place_key_into, place_key_to_string,
};
pub use reference_of::ReferenceOf;
pub use relative_reference::{
    RelativeReference, RelativeReferenceBuilder, RelativeReferenceError, RelativeReferenceText,
    RelativeReferenceView,
};
pub use sort_key::{KeyForm, sort_key_into, sort_key_to_string};
pub use text_of::TextOf;
pub use uri::{Disagreement, Origin, URI, URIBuilder, URIError, URIText, URIView};
pub use uriparse_authority::authority;
pub use uriparse_authority::authority::{
    Authority, AuthorityError, Host, HostError, IPvFuture, IpAddr, Ipv4Addr, Ipv6Addr, Password,
    PasswordError, PortError, Reach, RegisteredName, RegisteredNameError, Username, UsernameError,
};
pub use uriparse_path::path;
pub use uriparse_path::path::{Path, PathError, PathOf, Segment, Segments};
pub use uriparse_reference::uri_reference;
pub use uriparse_reference::uri_reference::{
    BufferError, Change, ChangeError, Changes, Edit, ReferenceKey, ReferenceText, ReferenceView,
    RejectedText, TargetError, URIReference, URIReferenceBuilder, URIReferenceError,
    WithoutPassword, escape_invalid, escape_invalid_into,
};
pub use uriparse_scheme::scheme;
pub use uriparse_scheme::scheme::{Scheme, SchemeError, SchemeStatus, UnregisteredScheme};
pub use uriparse_text::fragment::{Fragment, FragmentError};
pub use uriparse_text::internal::{Text, TextKind, TooSmall};
pub use uriparse_text::link::trim_link;
pub use uriparse_text::query::{Query, QueryError};
pub use uriparse_text::{fragment, query};
pub use view_of::ViewOf;
