//! Place keys: byte strings that begin with a URI's host from its last label on, so that all URIs
//! within a domain, and all URIs below another one, are a range of keys. RFC 3986, sections 6.2.2
//! and 6.2.3, and RFC 1034, section 3.1.
//!
//! The place key of a URI begins with [`domain_prefix_into`]'s bytes of a domain exactly if its host
//! [is within](uriparse_authority::authority::Host::is_within) the domain. If the URI [is
//! below](crate::uri::URI::is_within) a base, it begins with [`base_prefix_into`]'s bytes of the base.
//! Conversely, a URI whose key begins with them is below the base, unless a segment after the base's
//! directory is ambiguous or a `..` in its path removes a segment on which readers disagree.
//!
//! In an index the keys that begin with a prefix are those from the prefix up to, and without, its
//! successor: the prefix with its last byte greater by one.
//!
//! A key has only bytes from 0x01 to 0x7E. It isn't a URI, and nothing reads it back. It begins with
//! `p`, the version of this layout; a later version begins with another byte:
//!
//! - The authority is 0x01 if it is absent. Else it is 0x02, the host, the port, the user name and the
//!   password. It precedes the scheme.
//! - A host is `1` and the labels of a name from the last one on, each in canonical spelling and with
//!   0x01 after it; or `2`, the canonical spelling of a name that is within no other domain, and
//!   0x01; or `4`, the eight hexadecimal digits of an IPv4 address, and 0x01; or `6`, the 32 digits of
//!   an IPv6 address, and 0x01; or `7`, the canonical spelling of what the brackets of a later
//!   version's address enclose, and 0x01. Then 0x03 follows a name that ends with a dot, and 0x02
//!   any other host. A domain's prefix ends before that byte.
//! - A port is 0x01 if the URI has none and its scheme has no default port. Else it is 0x02 and five
//!   decimal digits.
//! - The user name, the password, the scheme, the query and the fragment are the byte 0x01 if they
//!   are absent. Else they are 0x02, the canonical spelling and 0x01.
//! - The path is its text without dot segments and in canonical spelling, and 0x01. It follows the
//!   scheme. A base's prefix ends after the last slash of its path; it has the whole path and 0x01 if
//!   that has no slash.
ghost use Rattle.std.specs.Prelude.{◌≡◌, ◌∷◌, ⊤, IfOk, IfSome, false, length, string_bytes};
ghost use Rattle.std.specs.Option.{option_and_then, option_map, option_or};
ghost use Rattle.uriparse_text.specs.Ends.{EndsWith, Puts};
ghost use Rattle.uriparse_authority.specs.Authority.{with_port};
ghost use Rattle.uriparse_authority.specs.Host as hosts;
ghost use Rattle.uriparse_path.specs.Normal.{pnormal};
ghost use Rattle.uriparse_path.specs.Path.{IsPath, has_hidden_root, spelled};
ghost use Rattle.uriparse_path.specs.Within.{between_slashes};
ghost use Rattle.uriparse_reference.specs.Into.{Writes};
ghost use Rattle.uriparse_reference.specs.Ports.{default_port_of};
ghost use Rattle.uriparse.specs.PlaceKey as spec;

mod names;

use crate::sort_key::{
    END, PRESENT, prepend_ended, prepend_octets, prepend_optional, prepend_port, prepend_scheme,
    prepend_segments,
};
use crate::uri::URIView;
use names::{ends_with_dot, prepend_name};
use std::alloc::{AllocError, Global};
use uriparse_authority::authority::{Authority, Host};
use uriparse_path::internal::{PathContext, SegmentSequence, prepend_normal_path, segments_of};
use uriparse_reference::internal::{PutText, make_string, write};
use uriparse_reference::uri_reference::{BufferError, ReferenceView};
use uriparse_text::internal::{Case, Held, prepend};

/// Puts what a host and the hosts within it begin with.
fn prepend_host_prefix(host: &Host<'_>, out: &mut [u8], len: usize) -> usize
    ensures room { length out.new ≡ length out.old }
    ensures puts { Puts (spec.host_prefix host.now) out.old len out.new result }
{
    match host {
        Host::IPv4Address(address) => {
            let len = prepend(END, out, len);
            let len = prepend_octets(*address, out, len);
            prepend(b"4", out, len)
        }
        Host::IPv6Address(address) => {
            let len = prepend(END, out, len);
            let len = prepend_segments(*address, out, len);
            prepend(b"6", out, len)
        }
        Host::IPvFuture(address) => {
            let len = prepend_ended(Case::Lowered, address.as_str().as_bytes(), out, len);
            prepend(b"7", out, len)
        }
        Host::RegisteredName(name) => prepend_name(name.as_bytes(), out, len),
    }
}

/// Does nothing. The host is valid, which is known once its address or its text is read.
fn assert_valid(host: &Host<'_>)
    ensures { hosts.Valid host.now }
{
    match host {
        Host::IPv4Address(address) => {
            address.octets();
        }
        Host::IPv6Address(address) => {
            address.segments();
        }
        Host::IPvFuture(address) => {
            address.as_str();
        }
        Host::RegisteredName(name) => {
            name.as_str();
        }
    }
}

/// The byte that ends a host.
fn end_of(host: &Host<'_>) -> u8
    ensures { result ≡ spec.end_of host.now }
{
    match host {
        Host::RegisteredName(name) => { if ends_with_dot(name.as_bytes()) { 3 } else { 2 } }
        _ => 2,
    }
}

/// Puts an authority with this port in the place of its own.
fn prepend_place(authority: &Authority<'_>, port: Option<u16>, out: &mut [u8], len: usize) -> usize
    ensures room { length out.new ≡ length out.old }
    ensures puts { Puts (spec.place_authority (with_port authority.now port)) out.old len out.new result }
{
    let len = prepend_optional(authority.password(), out, len);
    let len = prepend_optional(authority.username(), out, len);
    let len = prepend_port(port, out, len);
    let len = prepend(&[end_of(authority.host())], out, len);
    prepend_host_prefix(authority.host(), out, len)
}

/// Puts an authority with the port that it uses, if there is an authority.
fn prepend_authority(
    authority: &Option<Authority<'_>>,
    default: Option<u16>,
    out: &mut [u8],
    len: usize,
) -> usize
    ensures room { length out.new ≡ length out.old }
    ensures puts { Puts (spec.authority_text authority.now default) out.old len out.new result }
{
    match authority {
        Some(authority) => {
            let len = prepend_place(authority, authority.port().or(default), out, len);
            prepend(PRESENT, out, len)
        }
        None => prepend(END, out, len),
    }
}

/// The default port of the view's scheme, if there is a scheme and it has one.
fn default_port(view: &ReferenceView<'_>) -> Option<u16>
    ensures { result ≡ default_port_of view.now.parts }
{
    view.scheme()?.default_port()
}

/// Puts what precedes the path.
fn prepend_front(view: &ReferenceView<'_>, out: &mut [u8], len: usize) -> usize
    ensures room { length out.new ≡ length out.old }
    ensures puts { Puts (spec.place_front view.now.parts) out.old len out.new result }
{
    let len = prepend_scheme(&Held(view.scheme()).0, out, len);
    let len = prepend_authority(&Held(view.authority()).0, default_port(view), out, len);
    prepend(b"p", out, len)
}

/// Dot segments are removed, and no `.` keeps a path from beginning with two slashes.
const PLACE: PathContext = PathContext {
    has_scheme: true,
    has_authority: true,
};

/// The path through its last slash, or all of it if its last segment is a dot segment.
fn directory_of(path: &[u8]) -> &[u8]
    requires path { IsPath path.now }
    requires shown { has_hidden_root (spelled path.now) ≡ false }
    ensures is { spelled result.now ≡ spec.directory_of (spelled path.now) }
    ensures path { IsPath result.now }
{
    match segments_of(path).split_last() {
        Some((_, last)) => {
            let last = Held(last);
            if last.0.is_dot_segment() {
                path
            } else {
                &path[..path.len() - last.0.as_bytes().len()]
            }
        }
        None => path,
    }
}

/// Puts the directory of a base at the end of the buffer, or all of its path if that has no slash.
fn prepend_directory(path: &[u8], out: &mut [u8]) -> usize
    requires path { IsPath path.now }
    requires shown { has_hidden_root (spelled path.now) ≡ false }
    ensures room { length out.new ≡ length out.old }
    ensures ends { EndsWith out.new result (spec.directory_prefix (between_slashes (pnormal (spelled path.now) false))) }
{
    let directory = directory_of(path);
    if prepend_normal_path(directory, PLACE, &mut [], 0) == 0 {
        let len = prepend(END, out, 0);
        prepend_normal_path(path, PLACE, out, len)
    } else {
        prepend_normal_path(directory, PLACE, out, 0)
    }
}

/// The place key of a view.
#[derive(Drop)]
struct PlaceText<'v, 't> {
    view: &'v ReferenceView<'t>,
}

impl<'v, 't> PutText for PlaceText<'v, 't> {
    ghost can_be_put = { λ _. ⊤ };

    ghost text = { λ s. spec.place_key s.view.now.parts };

    fn put(&self, out: &mut [u8]) -> usize {
        let view = self.view;
        // What the view has is valid, which is known once its text is read.
        let _text = view.as_str();
        let len = prepend_optional(Held(view.fragment()).0.as_ref(), out, 0);
        let len = prepend_optional(Held(view.query()).0.as_ref(), out, len);
        let len = prepend(END, out, len);
        let len = prepend_normal_path(view.path().as_bytes(), PLACE, out, len);
        prepend_front(view, out, len)
    }
}

/// What the keys of all URIs below a view begin with.
#[derive(Drop)]
struct BaseText<'v, 't> {
    view: &'v ReferenceView<'t>,
}

impl<'v, 't> PutText for BaseText<'v, 't> {
    ghost can_be_put = { λ _. ⊤ };

    ghost text = { λ s. spec.base_prefix s.view.now.parts };

    fn put(&self, out: &mut [u8]) -> usize {
        let view = self.view;
        // What the view has is valid, which is known once its text is read.
        let _text = view.as_str();
        let len = prepend_directory(view.path().as_bytes(), out);
        prepend_front(view, out, len)
    }
}

/// What the keys of all URIs within a domain begin with.
#[derive(Drop)]
struct DomainText<'d, 'h> {
    domain: &'d Host<'h>,
}

impl<'d, 'h> PutText for DomainText<'d, 'h> {
    ghost can_be_put = { λ _. ⊤ };

    ghost text = { λ s. spec.domain_prefix s.domain.now };

    fn put(&self, out: &mut [u8]) -> usize {
        assert_valid(self.domain);
        let len = prepend_host_prefix(self.domain, out, 0);
        let len = prepend(PRESENT, out, len);
        prepend(b"p", out, len)
    }
}

/// How many bytes a key usually has beyond the URI's.
const MORE: usize = 24;

/// Writes the place key of a URI to the start of the buffer, and returns its length in bytes; what
/// follows it in the buffer is unchanged. RFC 3986, sections 6.2.2 and 6.2.3.
///
/// Two URIs have the same place key exactly if their normal forms are equal, with the ports that they
/// use. If the buffer is too small, it is unchanged, and the error is
/// [`TooSmall`](BufferError::TooSmall) with the length needed; so a call with an empty buffer
/// returns the length. Does not allocate.
///
/// ```
/// let uri = URIView::try_from_str("HTTP://www.Example.com/a/../b?q")?;
/// let mut buffer = [0; 64];
/// let len = place_key_into(&uri, &mut buffer)?;
/// let key = b"p\x021com\x01example\x01www\x01\x02\x0200080\x01\x01\x02http\x01/b\x01\x02q\x01\x01";
/// assert!(&buffer[..len] == key.as_slice());
/// ```
pub fn place_key_into(uri: &URIView<'_>, out: &mut [u8]) -> Result<usize, BufferError>
    ensures { Writes (spec.place_key uri.now.parts) result out.old out.new }
{
    let view = uri.as_reference_view();
    write(
        &PlaceText { view },
        view.as_str().len().saturating_add(MORE),
        out,
    )
}

/// The place key of a URI in a string. Allocates once, exactly its length; fails only if memory runs
/// out.
pub fn place_key_to_string(alloc: Global, uri: &URIView<'_>) -> Result<String, AllocError>
    ensures { IfOk result (λ s. string_bytes s ≡ spec.place_key uri.now.parts) }
{
    let view = uri.as_reference_view();
    make_string(alloc, &PlaceText { view })
}

/// Writes what the place keys of all URIs within a domain begin with, and those of no other, to the
/// start of the buffer, and returns its length in bytes; what follows it in the buffer is unchanged.
/// Which hosts are within a domain [`Host::is_within`] says. The last byte is 0x01.
///
/// If the buffer is too small, it is unchanged, and the error is
/// [`TooSmall`](BufferError::TooSmall) with the length needed. Does not allocate.
///
/// ```
/// let domain = Host::try_from_str("Example.com")?;
/// let mut buffer = [0; 64];
/// let len = domain_prefix_into(&domain, &mut buffer)?;
/// assert!(&buffer[..len] == b"p\x021com\x01example\x01".as_slice());
/// ```
pub fn domain_prefix_into(domain: &Host<'_>, out: &mut [u8]) -> Result<usize, BufferError>
    ensures { Writes (spec.domain_prefix domain.now) result out.old out.new }
{
    write(&DomainText { domain }, MORE, out)
}

/// The same prefix in a string. Allocates once, exactly its length; fails only if memory runs out.
pub fn domain_prefix_to_string(alloc: Global, domain: &Host<'_>) -> Result<String, AllocError>
    ensures { IfOk result (λ s. string_bytes s ≡ spec.domain_prefix domain.now) }
{
    make_string(alloc, &DomainText { domain })
}

/// Writes what the place keys of all URIs below a base begin with to the start of the buffer, and
/// returns its length in bytes; what follows it in the buffer is unchanged. Which URIs are below a
/// base [`URI::is_within`](crate::uri::URI::is_within) says; ask it too of what such a key stands for,
/// since it rejects the segments on which readers disagree. The last byte is `/`, or 0x01 if the base's
/// path has no slash.
///
/// If the buffer is too small, it is unchanged, and the error is
/// [`TooSmall`](BufferError::TooSmall) with the length needed. Does not allocate.
///
/// ```
/// let base = URIView::try_from_str("https://example.com/app/index")?;
/// let mut buffer = [0; 64];
/// let len = base_prefix_into(&base, &mut buffer)?;
/// let prefix = b"p\x021com\x01example\x01\x02\x0200443\x01\x01\x02https\x01/app/";
/// assert!(&buffer[..len] == prefix.as_slice());
/// ```
pub fn base_prefix_into(base: &URIView<'_>, out: &mut [u8]) -> Result<usize, BufferError>
    ensures { Writes (spec.base_prefix base.now.parts) result out.old out.new }
{
    let view = base.as_reference_view();
    write(
        &BaseText { view },
        view.as_str().len().saturating_add(MORE),
        out,
    )
}

/// The same prefix in a string. Allocates once, exactly its length; fails only if memory runs out.
pub fn base_prefix_to_string(alloc: Global, base: &URIView<'_>) -> Result<String, AllocError>
    ensures { IfOk result (λ s. string_bytes s ≡ spec.base_prefix base.now.parts) }
{
    let view = base.as_reference_view();
    make_string(alloc, &BaseText { view })
}
