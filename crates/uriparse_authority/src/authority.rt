//! An authority: RFC 3986, section 3.2.
ghost use Rattle.std.specs.Prelude.{[], ◌≡◌, ◌≤◌, ◌⊎◌, ℕ, IfOk, List, Ok, Option, Some, bytes_eq, is_some, fold, length, string_bytes, unwrap_or};
ghost use Rattle.std.specs.Option.{option_copied};
ghost use Rattle.std.proofs.Common.{rules};
ghost use Rattle.std.specs.Ordering.{on};
ghost use Rattle.std.specs.Cmp.Rules.{comparing, hashing};
ghost use Rattle.uriparse_authority.specs.Authority as spec;

use std::alloc::{AllocError, Global};
use std::fmt;
use std::fmt::Write;
use std::hash::{Hash, Hasher};
use std::marker::Model;

mod edit;
mod error;
mod future;
mod host;
mod name;
pub(crate) mod normal;
pub(crate) mod offset;
mod order;
mod password;
pub(crate) mod pieces;
mod port;
mod print;
mod printed;
mod public;
pub(crate) mod read;
pub(crate) mod scanned;
mod username;
mod within;
pub(crate) mod write;

pub use error::{
    AuthorityError, HostError, PasswordError, PortError, RegisteredNameError, UsernameError,
};
pub use future::IPvFuture;
pub use host::Host;
pub use name::RegisteredName;
pub use password::Password;
pub use port::parse_port;
use print::{write_port, write_user};
use read::read_whole;
pub use uriparse_text::address::{IpAddr, Ipv4Addr, Ipv6Addr, Reach};
use uriparse_text::internal::{Held, borrowed_text, len_of, owned_text};
pub use username::Username;
use username::empty_username;

/// The authority of a reference, without its `//`: an optional user name and password, the host,
/// and an optional port. RFC 3986, section 3.2.
///
/// A password comes only with a user name, which may be empty; a port is at most 65535, and an
/// empty one counts as absent. The components borrow the text that they were read from, or own
/// their texts. Its readers do not allocate; [`AuthorityError`] says what they reject. Its setters
/// and maps always succeed; if memory runs out in [`normalize`](Authority::normalize), it is
/// unchanged. Two authorities are equal if their hosts are of one kind and their canonical
/// spellings agree.
///
/// ```
/// let authority = Authority::try_from_str("user:@EXAMPLE.com:0080")?;
/// assert!(authority.has_password() && authority.port() == Some(80));
/// assert_eq!(authority.to_string(alloc)?.as_str(), "user:@EXAMPLE.com:80");
/// ```
#[derive(Drop)]
pub struct Authority<'a> {
    username: Option<Username<'a>>,
    password: Option<Password<'a>>,
    host: Host<'a>,
    port: Option<u16>,
}

impl<'a> Model for Authority<'a> {
    ghost use Rattle.uriparse_authority.specs.Authority.{AuthorityParts, Valid};

    ghost Value = { AuthorityParts };

    ghost view = { λ a. record { username = a.username; password = a.password; host = a.host; port = a.port } };

    ghost invariant = { λ a. Valid (record { username = a.username; password = a.password; host = a.host; port = a.port }) };
}

impl<'a> Authority<'a> {
    ghost use Rattle.uriparse_authority.specs.Authority.{Valid};

    /// Reads an authority, whose components borrow the bytes. Does not allocate.
    ///
    /// The first `@` ends the user information, whose first `:` starts the password; the last `:`
    /// after the `@` and after any `]` starts the port. The error is the first faulty
    /// component's, in the order [`Username`](AuthorityError::Username),
    /// [`Password`](AuthorityError::Password), [`Host`](AuthorityError::Host),
    /// [`Port`](AuthorityError::Port). A `/`, `?` or `#` ends the authority. After a faultless
    /// authority it is an error: [`PortError::InvalidCharacter`] if there is a port (an empty one
    /// is none), else [`HostError::InvalidIPv6Character`] after an IPv6 address,
    /// [`HostError::InvalidIPvFutureCharacter`] after an address of a later version, and
    /// [`HostError::InvalidIPv4OrRegisteredNameCharacter`] after any other host.
    pub fn try_from_bytes(bytes: &'a [u8]) -> Result<Authority<'a>, AuthorityError>
        ensures { result ≡ spec.whole_reading bytes.now }
    {
        read_whole(bytes)
    }

    /// Like [`try_from_bytes`](Authority::try_from_bytes), for a `str`.
    pub fn try_from_str(text: &'a str) -> Result<Authority<'a>, AuthorityError>
        ensures { result ≡ spec.whole_reading text.now }
    {
        Authority::try_from_bytes(text.as_bytes())
    }

    /// The authority with these components. Always succeeds: a password without a user name gets an
    /// empty user name. Does not allocate.
    pub fn from_parts(
        username: Option<Username<'a>>,
        password: Option<Password<'a>>,
        host: Host<'a>,
        port: Option<u16>,
    ) -> Result<Authority<'a>, AuthorityError>
        ensures { result ≡ Ok (spec.of_parts username.entry password.entry host.entry port) }
    {
        let username = with_empty(username, password.is_some());
        Ok(Authority {
            username,
            password,
            host,
            port,
        })
    }

    /// The user name, the password, the host and the port. Does not allocate.
    pub fn into_parts(
        self,
    ) -> (
        Option<Username<'a>>,
        Option<Password<'a>>,
        Host<'a>,
        Option<u16>,
    )
        ensures username { result.0 ≡ self.entry.username }
        ensures password { result.1 ≡ self.entry.password }
        ensures host { result.2 ≡ self.entry.host }
        ensures port { result.3 ≡ self.entry.port }
    {
        (self.username, self.password, self.host, self.port)
    }

    /// The user name, if present.
    pub fn username(&self) -> Option<&Username<'a>>
        ensures { option_copied result ≡ self.now.username }
    {
        self.username.as_ref()
    }

    /// The password, if present.
    pub fn password(&self) -> Option<&Password<'a>>
        ensures { option_copied result ≡ self.now.password }
    {
        self.password.as_ref()
    }

    /// The host.
    pub fn host(&self) -> &Host<'a>
        ensures value { result.now ≡ self.now.host }
        ensures valid { Valid self.now }
    {
        &self.host
    }

    /// The port, if present.
    pub fn port(&self) -> Option<u16>
        ensures { result ≡ self.now.port }
    {
        self.port
    }

    /// Whether there is a user name.
    pub fn has_username(&self) -> bool
        ensures { result ≡ is_some self.now.username }
    {
        self.username.is_some()
    }

    /// Whether there is a password.
    pub fn has_password(&self) -> bool
        ensures { result ≡ is_some self.now.password }
    {
        self.password.is_some()
    }

    /// Whether there is a port.
    pub fn has_port(&self) -> bool
        ensures { result ≡ is_some self.now.port }
    {
        self.port.is_some()
    }

    /// A copy that borrows this authority's texts. Does not allocate.
    pub fn as_borrowed(&self) -> Authority<'_>
        ensures { result ≡ self.now }
    {
        Authority {
            username: borrowed_text(self.username()),
            password: borrowed_text(self.password()),
            host: self.host.as_borrowed(),
            port: self.port,
        }
    }

    /// The authority, owned. Borrowed texts are copied, which allocates; if memory runs out,
    /// the authority is dropped.
    pub fn into_owned(self, alloc: Global) -> Result<Authority<'static>, AllocError>
        ensures { IfOk result (λ a. a ≡ self.entry) }
    {
        let (username, password, host, port) = self.into_parts();
        let (password, host) = (Held(password), Held(host));
        let username = Held(owned_text(alloc, username)?);
        let password = Held(owned_text(alloc, password.take())?);
        let host = host.take().into_owned(alloc)?;
        Ok(Authority {
            username: username.take(),
            password: password.take(),
            host,
            port,
        })
    }

    /// A copy that owns its texts, in one call. Allocates.
    pub fn to_owned(&self, alloc: Global) -> Result<Authority<'static>, AllocError>
        ensures { IfOk result (λ a. a ≡ self.now) }
    {
        self.as_borrowed().into_owned(alloc)
    }

    /// An upper bound on the number of bytes of the authority's text: its components' bytes, two
    /// colons, an `@` and the five digits of a port; or `usize::MAX`.
    pub(crate) fn most_bytes(&self) -> usize
        ensures { length (spec.print self.now) ≤ result ⊎ result ≡ usize.MAX }
    {
        8usize
            .saturating_add(len_of(&self.username))
            .saturating_add(len_of(&self.password))
            .saturating_add(self.host.most_bytes())
    }

    /// A copy of the authority's text. Allocates.
    pub fn to_string(&self, alloc: Global) -> Result<String, AllocError>
        ensures { IfOk result (λ s. string_bytes s ≡ spec.print self.now) }
    {
        let mut text = String::with_capacity(alloc, self.most_bytes())?;
        write!(text, "{self}")?;
        Ok(text)
    }

    /// Whether each component is spelled like the other's.
    fn is_each_alike(&self, other: &Authority<'a>) -> bool
        ensures test { result ≡ spec.each_alike self.now other.now }
        ensures valid { Valid self.now × Valid other.now }
    {
        self.username == other.username
            && self.password == other.password
            && self.host == other.host
            && self.port == other.port
    }
}

/// The user name, or an empty one if there is none and a password needs it.
fn with_empty(username: Option<Username<'_>>, has_password: bool) -> Option<Username<'_>>
    ensures { (w : Option (List ℕ)) → is_some w ≡ has_password → result ≡ spec.with_empty username.entry w }
{
    match username {
        None if has_password => Some(empty_username()),
        username => username,
    }
}

impl<'a> PartialEq for Authority<'a> {
    ghost eq = { on spec.key bytes_eq };

    ghost laws = { Prim.search (comparing, rules) };

    fn eq(&self, other: &Authority<'a>) -> bool {
        self.is_each_alike(other)
    }
}

impl<'a> Eq for Authority<'a> {
    ghost laws = { Prim.search (comparing, rules) };
}

impl<'a> Hash for Authority<'a> {
    ghost hash_input = { λ a. spec.fed_key (spec.key a) };

    ghost respects_eq = { Prim.search (hashing, rules) };

    fn hash<H: Hasher>(&self, state: &mut H)
        ensures fed { state.new ≡ fold H.write state.old (spec.fed self.now) }
        ensures key { state.new ≡ fold H.write state.old (spec.fed_key (spec.key self.now)) }
    {
        self.username.hash(state);
        self.password.hash(state);
        self.host.hash(state);
        self.port.hash(state);
    }
}

impl<'a> fmt::Display for Authority<'a> {
    ghost output = { λ a. Some (spec.print a) };

    // The formatter's options have no effect.
    ghost styled_output = { λ a _. Some (spec.print a) };

    fn fmt<W: fmt::Write>(&self, f: &mut fmt::Formatter<W>) -> fmt::Result {
        write_user(&self.username, &self.password, f)?;
        fmt::Display::fmt(&self.host, f)?;
        write_port(self.port, f)
    }
}

impl<'a> fmt::Debug for Authority<'a> {
    fn fmt<W: fmt::Write>(&self, f: &mut fmt::Formatter<W>) -> fmt::Result {
        f.debug_struct("Authority")
            .field("username", &self.username)
            .field("password", &self.password)
            .field("host", &self.host)
            .field("port", &self.port)
            .finish()
    }
}
