//! Changes of a reference's components, of which each other component keeps its bytes: RFC 3986,
//! sections 3 and 5.3.
ghost use Rattle.std.specs.Prelude.{◌≡◌};
ghost use Rattle.uriparse_reference.specs.Wanted.{unchanged};

use super::error::URIReferenceError;
use std::marker::Model;
use thiserror::Error;

pub(in crate::uri_reference) mod check;
pub(in crate::uri_reference) mod strings;

/// What becomes of a component.
#[derive(Clone, Copy)]
pub enum Change<'c> {
    /// It keeps its bytes, or its absence.
    Keep,
    /// It is absent. A path is empty.
    Remove,
    /// It has this string, without delimiters.
    Set(&'c [u8]),
}

/// What becomes of each component of a reference, for
/// [`change_into`](super::ReferenceView::change_into) and its like. All changes are made at once;
/// then the result is tested.
///
/// ```
/// let mut changes = Changes::none();
/// changes.host = Change::Set(b"example.org");
/// changes.query = Change::Remove;
/// let view = ReferenceView::try_from_str("HTTP://u@h/%7Ea?q#f")?;
/// assert_eq!(view.change_to_string(alloc, &changes)?.as_str(), "HTTP://u@example.org/%7Ea#f");
/// ```
#[derive(Drop)]
pub struct Changes<'c> {
    /// The scheme, without its `:`.
    pub scheme: Change<'c>,
    /// The user name. Removing it also removes a password that is kept.
    pub username: Change<'c>,
    /// The password. Setting it brings an empty user name if there is none.
    pub password: Change<'c>,
    /// The host. Setting it makes an authority, and removing it removes the authority.
    pub host: Change<'c>,
    /// The port, a decimal number. A port that is set to the empty string is a `:` without a number.
    pub port: Change<'c>,
    /// The path. After an authority, a path that is not empty gets a leading `/` if it has none.
    pub path: Change<'c>,
    /// The query, without its `?`.
    pub query: Change<'c>,
    /// The fragment, without its `#`.
    pub fragment: Change<'c>,
}

impl<'c> Model for Changes<'c> {
    ghost use Rattle.uriparse_reference.specs.Wanted.{Wanted, wish};

    ghost Value = { Wanted };

    ghost view = { λ c. record { scheme = wish c.scheme; username = wish c.username; password = wish c.password; host = wish c.host; port = wish c.port; path = wish c.path; query = wish c.query; fragment = wish c.fragment } };
}

impl<'c> Changes<'c> {
    /// No change: each component is kept.
    pub fn none() -> Changes<'c>
        ensures { result ≡ unchanged }
    {
        Changes {
            scheme: Change::Keep,
            username: Change::Keep,
            password: Change::Keep,
            host: Change::Keep,
            port: Change::Keep,
            path: Change::Keep,
            query: Change::Keep,
            fragment: Change::Keep,
        }
    }
}

/// Why a reference is not changed, or the result is not written or returned.
#[derive(Clone, Copy, Debug, PartialEq, Eq, Hash, Error)]
pub enum ChangeError {
    /// A user name, a password or a port is set, and there is no host.
    #[error("user name, password or port without a host")]
    MissingHost,
    /// The first component with a fault, or the rule by which the path may not stand in the result.
    #[error(transparent)]
    Reference(URIReferenceError),
    /// The buffer is too small for the string, whose length in bytes this is, or `usize::MAX` if it
    /// is longer.
    #[error("buffer too small for {0} bytes")]
    TooSmall(usize),
    /// Out of memory, for the string.
    #[error("out of memory")]
    OutOfMemory,
}
