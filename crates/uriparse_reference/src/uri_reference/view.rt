//! A URI reference in its text, read without memory: RFC 3986, section 4.1.
ghost use Rattle.std.specs.Prelude.{◌≡◌, ◌==◌, ◌&&◌, IfErr, IfOk, IsOk, Ok, Some, is_some, length};
ghost use Rattle.std.specs.Str.{IsUtf8};
ghost use Rattle.uriparse_path.specs.Path.{IsListed, IsPath, text};
ghost use Rattle.uriparse_reference.specs.Cuts.{path_text};
ghost use Rattle.uriparse_reference.specs.Reading.{fault};
ghost use Rattle.uriparse_reference.specs.Reference.{host_of, password_of, port_of, username_of};
ghost use Rattle.uriparse_reference.specs.View.{viewed};

use super::URIReference;
use super::error::URIReferenceError;
use super::read::{Pieces, find_pieces};
use std::alloc::{AllocError, Global};
use std::marker::Model;
use std::{fmt, str};
use uriparse_authority::authority::{Authority, Host, Password, Username};
use uriparse_path::internal::segments_of;
use uriparse_path::path::Segments;
use uriparse_scheme::internal::scheme_if;
use uriparse_scheme::scheme::Scheme;
use uriparse_text::fragment::Fragment;
use uriparse_text::internal::Held;
use uriparse_text::query::Query;

mod change;
mod classify;
mod compare;
mod end;
mod normal;
pub(in crate::uri_reference) mod offsets;
mod order;
mod pairs;
mod printed;
pub(crate) mod put;
pub(crate) mod relativize;
mod string;
mod target;
mod write;

/// A URI reference in its text: a URI or a relative reference, whose components are found and
/// checked but not copied. RFC 3986, section 4.1.
///
/// It borrows the text, and only its calls that take an allocator allocate. So it suits a caller
/// who reads many references and asks each for a component or two. What its calls return borrows
/// the text too, not the view. Contracts see it as the text that was read and its components. Two
/// views are equal if the [`URIReference`]s that they build are, and they hash alike then.
///
/// ```
/// let view = ReferenceView::try_from_str("https://user@example.com:80/a/b?q")?;
/// assert!(view.port() == Some(80) && view.path() == "/a/b" && view.has_query());
/// assert!(view == ReferenceView::try_from_str("HTTPS://user@EXAMPLE.com:0080/a/%62?q")?);
/// ```
#[derive(Drop)]
pub struct ReferenceView<'t> {
    text: &'t [u8],
    pieces: Pieces<'t>,
}

/// Bytes that are UTF-8, as a `str`.
fn str_of(bytes: &[u8]) -> &str
    requires { IsUtf8 bytes.now }
    ensures { result.now ≡ bytes.now }
{
    unsafe { str::from_utf8_unchecked(bytes) }
}

impl<'t> Model for ReferenceView<'t> {
    ghost use Rattle.uriparse_reference.specs.Reading.{parts_of};
    ghost use Rattle.uriparse_reference.specs.View.{AreFound, Viewed};

    ghost Value = { Viewed };

    ghost view = { λ v. record { text = v.text.now; parts = parts_of v.text.now v.pieces.authority v.pieces.tail.path.now v.pieces.tail.query v.pieces.tail.fragment } };

    ghost invariant = { λ v. AreFound v.text.now v.pieces.scheme.now v.pieces.known v.pieces.authority
        v.pieces.tail.path.now v.pieces.tail.count v.pieces.tail.escaped v.pieces.tail.query v.pieces.tail.fragment };
}

impl<'t> ReferenceView<'t> {
    ghost use Rattle.uriparse_reference.specs.Reference.{Parts, Spells, Valid};
    ghost use Rattle.uriparse_reference.specs.declared.uri_reference.error.URIReferenceError.{URIReferenceError};

    /// Does nothing. The view is valid, which is known once a field is read.
    #[inline(always)]
    fn assert_valid(&self)
        ensures spelled { Spells self.now.text self.now.parts }
        ensures valid { Valid self.now.parts }
    {
        let _text = &self.text;
    }

    /// Finds the components of the text, or its fault. Inlined, so that a view is found in its last
    /// place: it is large, and a call that returns it would move it.
    #[inline(always)]
    fn read(bytes: &'t [u8]) -> Result<ReferenceView<'t>, URIReferenceError>
        ensures { result ≡ viewed bytes.now }
    {
        match find_pieces(bytes) {
            Ok(pieces) => Ok(ReferenceView {
                text: bytes,
                pieces,
            }),
            Err(error) => Err(error),
        }
    }

    /// Reads a reference, which borrows the bytes: RFC 3986, section 4.1. Does not allocate.
    ///
    /// Returns the fault that [`URIReference::try_from_bytes`] returns.
    #[inline(always)]
    pub fn try_from_bytes(bytes: &'t [u8]) -> Result<ReferenceView<'t>, URIReferenceError>
        // The result keeps the text, which spells its components.
        ensures text { IfOk result (λ v. v.text ≡ bytes.now) }
        ensures found { IfOk result (λ v. Spells bytes.now v.parts) }

        // A text that spells a reference is accepted.
        ensures only { (p : Parts) → Spells bytes.now p → result ≡ Ok (record { text = bytes.now; parts = p }) }

        // Any other is rejected with its fault.
        ensures fault { IfErr result (λ e. fault bytes.now ≡ Some e) }
        ensures reads { result ≡ viewed bytes.now }
    {
        Self::read(bytes)
    }

    /// Like [`try_from_bytes`](ReferenceView::try_from_bytes), for a `str`.
    pub fn try_from_str(text: &'t str) -> Result<ReferenceView<'t>, URIReferenceError>
        ensures text { IfOk result (λ v. v.text ≡ text.now) }
        ensures found { IfOk result (λ v. Spells text.now v.parts) }
        ensures only { (p : Parts) → Spells text.now p → result ≡ Ok (record { text = text.now; parts = p }) }
        ensures fault { IfErr result (λ e. fault text.now ≡ Some e) }
        ensures reads { result ≡ viewed text.now }
    {
        Self::read(text.as_bytes())
    }

    /// The reference, whose components borrow the text. Allocates only for the list of the path's
    /// segments, if there is more than one; no byte is checked again.
    pub fn to_reference(&self, alloc: Global) -> Result<URIReference<'t>, AllocError>
        ensures reference { IfOk result (λ r. r ≡ self.now.parts) }

        // A path of one segment takes no memory.
        ensures takes_no_memory { length self.now.parts.path.segments ≡ 1 → IsOk result }
    {
        match self.pieces.make_path(alloc) {
            Ok(path) => Ok(self.pieces.to_reference(path)),
            Err(_) => Err(AllocError),
        }
    }

    /// The whole text, as it was read.
    pub fn as_str(&self) -> &'t str
        ensures text { result.now ≡ self.now.text }
        ensures spelled { Spells self.now.text self.now.parts }
    {
        str_of(self.text)
    }

    /// The scheme, if there is one.
    pub fn scheme(&self) -> Option<Scheme<'t>>
        ensures { result ≡ self.now.parts.scheme }
    {
        scheme_if(self.pieces.scheme, self.pieces.known)
    }

    /// The authority, if there is one.
    #[inline]
    pub fn authority(&self) -> Option<Authority<'t>>
        ensures { result ≡ self.now.parts.authority }
    {
        match &self.pieces.authority {
            Some(found) => Some(found.to_authority()),
            None => None,
        }
    }

    /// The user name, if there is one.
    pub fn username(&self) -> Option<Username<'t>>
        ensures { result ≡ username_of self.now.parts }
    {
        self.pieces.authority.as_ref()?.username()
    }

    /// The password, if there is one.
    pub fn password(&self) -> Option<Password<'t>>
        ensures { result ≡ password_of self.now.parts }
    {
        self.pieces.authority.as_ref()?.password()
    }

    /// The host, if there is an authority.
    pub fn host(&self) -> Option<Host<'t>>
        ensures { result ≡ host_of self.now.parts }
    {
        Some(self.pieces.authority.as_ref()?.host())
    }

    /// The port, if there is one.
    pub fn port(&self) -> Option<u16>
        ensures { result ≡ port_of self.now.parts }
    {
        self.pieces.authority.as_ref()?.port()
    }

    /// The path's text, which is `/` if it is empty after an authority.
    pub fn path(&self) -> &'t str
        ensures text { result.now ≡ text self.now.parts.path }
        ensures valid { IsPath result.now }
    {
        str_of(self.path_bytes())
    }

    /// Whether the path is an empty one after an authority, which is read, and printed, as `/`.
    #[inline]
    fn has_implied_root(&self) -> bool
        ensures { result ≡ ((length (path_text self.now.text) == 0) && is_some self.now.parts.authority) }
    {
        self.pieces.tail.path.is_empty() && self.has_authority()
    }

    /// The bytes of the path's text.
    #[inline]
    fn path_bytes(&self) -> &'t [u8]
        ensures text { result.now ≡ text self.now.parts.path }
        ensures path { IsPath result.now }
        ensures valid { Valid self.now.parts }
    {
        let path = self.pieces.tail.path;
        if self.has_implied_root() { b"/" } else { path }
    }

    /// The segments of the path in order.
    pub fn segments(&self) -> Segments<'t>
        ensures value { result ≡ self.now.parts.path.segments }
        ensures listed { IsListed self.now.parts.path.segments }
    {
        segments_of(self.pieces.tail.path)
    }

    /// The query, if there is one.
    pub fn query(&self) -> Option<Query<'t>>
        ensures { result ≡ self.now.parts.query }
    {
        self.pieces.tail.query.to_text()
    }

    /// The fragment, if there is one.
    pub fn fragment(&self) -> Option<Fragment<'t>>
        ensures { result ≡ self.now.parts.fragment }
    {
        self.pieces.tail.fragment.to_text()
    }

    /// Whether there is a scheme.
    pub fn has_scheme(&self) -> bool
        ensures { result ≡ is_some self.now.parts.scheme }
    {
        self.pieces.has_scheme()
    }

    /// Whether there is an authority.
    pub fn has_authority(&self) -> bool
        ensures { result ≡ is_some self.now.parts.authority }
    {
        self.pieces.authority.is_some()
    }

    /// Whether there is a user name.
    pub fn has_username(&self) -> bool
        ensures { result ≡ is_some (username_of self.now.parts) }
    {
        self.username().is_some()
    }

    /// Whether there is a password.
    pub fn has_password(&self) -> bool
        ensures { result ≡ is_some (password_of self.now.parts) }
    {
        self.password().is_some()
    }

    /// Whether there is a port.
    pub fn has_port(&self) -> bool
        ensures { result ≡ is_some (port_of self.now.parts) }
    {
        self.port().is_some()
    }

    /// Whether there is a query, which may be empty.
    pub fn has_query(&self) -> bool
        ensures { result ≡ is_some self.now.parts.query }
    {
        self.query().is_some()
    }

    /// Whether there is a fragment, which may be empty.
    pub fn has_fragment(&self) -> bool
        ensures { result ≡ is_some self.now.parts.fragment }
    {
        self.fragment().is_some()
    }
}

impl<'t> fmt::Display for ReferenceView<'t> {
    ghost output = { λ v. Some v.text };

    // The formatter's options do not change the output.
    ghost styled_output = { λ v _. Some v.text };

    fn fmt<W: fmt::Write>(&self, f: &mut fmt::Formatter<W>) -> fmt::Result {
        f.write_str(self.as_str())
    }
}

impl<'t> fmt::Debug for ReferenceView<'t> {
    fn fmt<W: fmt::Write>(&self, f: &mut fmt::Formatter<W>) -> fmt::Result {
        f.debug_struct("ReferenceView")
            .field("scheme", &Held(self.scheme()).0)
            .field("authority", &Held(self.authority()).0)
            .field("path", &self.path())
            .field("query", &Held(self.query()).0)
            .field("fragment", &Held(self.fragment()).0)
            .finish()
    }
}
