//! An authority that a reader found: plain words that need no drop.
ghost use Rattle.std.specs.Prelude.{◌≡◌, ◌↔◌, ℕ, IfSome, IsTrue, List, None, Ok};
ghost use Rattle.uriparse_authority.specs.Authority as spec;
ghost use Rattle.uriparse_authority.specs.Host.{kind_code};
ghost use Rattle.uriparse_authority.specs.Normal.{canonical_authority};
ghost use Rattle.uriparse_authority.specs.Scanned.{IsNamed};
ghost use Rattle.uriparse_authority.specs.declared.authority.host.Host.TheVariants as hosts;
ghost use Rattle.uriparse_text.specs.Scanned.{if_there};
ghost use Rattle.uriparse_text.specs.Spelling.{IsValidText};
ghost use Rattle.uriparse_text.specs.declared.internal.class.Class.TheVariants as class;
ghost use Rattle.uriparse_text.specs.declared.internal.token.Case.TheVariants as case;

use super::host::scanned::{ScannedHost, found_name};
use super::password::PasswordKind;
use super::username::UsernameKind;
use super::{Authority, Host, Password, Username};
use std::marker::Model;
use uriparse_text::internal::{Held, ScannedText, no_text};

/// The components of an authority, borrowed from its bytes. Contracts see it as the authority.
#[derive(Drop)]
pub struct ScannedAuthority<'a> {
    username: ScannedText<'a, UsernameKind>,
    password: ScannedText<'a, PasswordKind>,
    host: ScannedHost<'a>,
    // 0 if there is no port.
    has_port: usize,
    port: usize,
}

impl<'a> Model for ScannedAuthority<'a> {
    ghost use Rattle.uriparse_text.specs.Scanned.{if_there};
    ghost use Rattle.uriparse_authority.specs.Authority.{AuthorityParts, Valid};

    ghost Value = { AuthorityParts };

    ghost view = { λ f. record { username = f.username; password = f.password; host = f.host; port = if_there f.has_port f.port } };

    ghost invariant = { λ f. Valid (record { username = f.username; password = f.password; host = f.host; port = if_there f.has_port f.port }) };
}

/// The authority that is a name with these bytes, canonical if so marked, and at most a port: what
/// [`name_words`](ScannedAuthority::name_words) told of it.
#[inline(always)]
pub fn scanned_named(bytes: &[u8], canonical: bool, port: Option<u16>) -> ScannedAuthority<'_>
    requires { IsValidText class.Name case.Lowered canonical bytes.now }
    ensures { result ≡ record { username = None; password = None; host = hosts.RegisteredName bytes.now; port = port } }
{
    found_authority(no_text(), no_text(), found_name(bytes, canonical), port)
}

/// The port as two words: whether there is one, and its number.
#[inline(always)]
fn port_words(port: Option<u16>) -> (usize, usize)
    ensures { if_there result.0 result.1 ≡ port }
{
    match port {
        Some(number) => (1, usize::from(number)),
        None => (0, 0),
    }
}

/// These components. Without a user name there is no password.
#[inline(always)]
pub(super) fn found_authority<'a>(
    username: ScannedText<'a, UsernameKind>,
    password: ScannedText<'a, PasswordKind>,
    host: ScannedHost<'a>,
    port: Option<u16>,
) -> ScannedAuthority<'a>
    requires { username ≡ spec.with_empty username password }
    ensures { result ≡ spec.of_parts username.entry password.entry host.entry port }
{
    let (has_port, port) = port_words(port);
    ScannedAuthority {
        username,
        password,
        host,
        has_port,
        port,
    }
}

impl<'a> ScannedAuthority<'a> {
    /// The user name, if there is one.
    #[inline(always)]
    pub fn username(&self) -> Option<Username<'a>>
        ensures { result ≡ self.now.username }
    {
        self.username.to_text()
    }

    /// The password, if there is one.
    #[inline(always)]
    pub fn password(&self) -> Option<Password<'a>>
        ensures { result ≡ self.now.password }
    {
        self.password.to_text()
    }

    /// The host.
    #[inline(always)]
    pub fn host(&self) -> Host<'a>
        ensures { result ≡ self.now.host }
    {
        self.host.to_host()
    }

    /// The port, if there is one.
    #[inline(always)]
    pub fn port(&self) -> Option<u16>
        ensures { result ≡ self.now.port }
    {
        if self.has_port == 0 {
            None
        } else {
            Some(self.port as u16)
        }
    }

    /// What [`scanned_named`] finds the authority by without reading it: the length of the name that
    /// its text begins with, and whether that is known to be canonical. `None` if there is user
    /// information or the host is an address.
    #[inline(always)]
    pub fn name_words(&self) -> Option<(usize, bool)>
        ensures { IfSome result (λ w. (text : List ℕ) → spec.reading text ≡ Ok self.now → IsNamed w.0 w.1 text self.now) }
    {
        if self.username.is_none() {
            self.host.name_words()
        } else {
            None
        }
    }

    /// The number of the host's kind: 1 for a name, and 4, 6 or 7 for an address of that version.
    pub fn host_kind(&self) -> u32
        ensures { result ≡ kind_code (spec.kind self.now) }
    {
        self.host.kind_code()
    }

    /// The authority, whose components borrow the bytes. Does not allocate.
    #[inline(always)]
    pub fn to_authority(&self) -> Authority<'a>
        ensures { result ≡ self.now }
    {
        Authority {
            username: self.username.to_text(),
            password: self.password.to_text(),
            host: self.host.to_host(),
            port: self.port(),
        }
    }

    /// Whether the text, from which the authority was read, is its normal form's: RFC 3986,
    /// section 6.2.2. Does not allocate.
    ///
    /// A name that was found to be canonical and is as long as the text is all of it, so for most
    /// texts no byte is read again and no authority is built.
    #[inline(always)]
    pub fn is_normal_text(&self, text: &[u8]) -> bool
        requires { spec.Spells text.now self.now }
        ensures { IsTrue result ↔ (spec.print (canonical_authority self.now) ≡ text.now) }
    {
        self.host.is_canonical_name(text.len()) || Held(self.to_authority()).0.prints_normal(text)
    }
}
