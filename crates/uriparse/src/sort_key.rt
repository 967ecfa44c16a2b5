//! Sort keys: byte strings that are equal, ordered and searched as references are. RFC 3986, section
//! 6.2.2.
//!
//! Databases, `sort` and hash tables compare bytes. A sort key is equal to another one exactly if the
//! references are, and bytes order keys as [`Ord`] orders the references. So keys can be grouped,
//! joined, indexed and sorted by anything that compares bytes.
//!
//! A key has only bytes from 0x01 to 0x7E. It isn't a URI, and nothing reads it back. It begins with
//! `1`, the version of this layout; a later version begins with another byte:
//!
//! - The scheme, the query, the fragment, the user name and the password are the byte 0x01 if they
//!   are absent. Else they are 0x02, the canonical spelling and 0x01.
//! - The authority is 0x01 if it is absent. Else it is 0x02, the user name, the password, the host
//!   and the port. It stands between the scheme and the path.
//! - A host is `1`, the canonical spelling of a name and 0x01; or `4` and the eight hexadecimal digits of
//!   an IPv4 address; or `6` and the 32 digits of an IPv6 address; or `7`, the canonical spelling of
//!   what the brackets of a later version's address enclose, and 0x01.
//! - A port is 0x01 if it is absent. Else it is 0x02 and five decimal digits.
//! - The path is its canonical spelling and 0x01. It precedes the query.
ghost use Rattle.std.specs.Prelude.{◌≡◌, ◌<◌, ◌∷◌, [], ⊤, IfOk, length, string_bytes, option_copied};
ghost use Rattle.std.specs.Char.{digit_char};
ghost use Rattle.std.specs.Option.{option_map};
ghost use Rattle.std.specs.List.{flat_map};
ghost use Rattle.uriparse_text.specs.Canonical.{canonical_in};
ghost use Rattle.uriparse_text.specs.Ends.{EndsWith, Puts};
ghost use Rattle.uriparse_authority.specs.Authority.{with_port};
ghost use Rattle.uriparse_reference.specs.Into.{Writes};
ghost use Rattle.uriparse_reference.specs.Ports.{default_port_of};
ghost use Rattle.uriparse_scheme.specs.Scheme as schemes;
ghost use Rattle.uriparse.specs.SortKey as spec;

use std::alloc::{AllocError, Global};
use uriparse_authority::authority::{Authority, Host, Ipv4Addr, Ipv6Addr};
use uriparse_path::internal::{PathContext, prepend_normal_path};
use uriparse_reference::internal::{PutText, make_string, write};
use uriparse_reference::uri_reference::{BufferError, ReferenceView};
use uriparse_scheme::scheme::Scheme;
use uriparse_text::internal::{Case, Form, Held, Text, TextKind, prepend, prepend_formed};

/// What a sort key is of.
#[derive(Clone, Copy, Debug, PartialEq, Eq)]
pub struct KeyForm {
    /// Of the normal form, whose dot segments are removed. The kind of the host stays.
    pub normalized: bool,
    /// Without a port that is the scheme's default port.
    pub without_default_port: bool,
    /// Without the fragment.
    pub without_fragment: bool,
}

impl KeyForm {
    /// The reference as it is: keys are equal exactly if references are.
    pub const EXACT: KeyForm = KeyForm {
        normalized: false,
        without_default_port: false,
        without_fragment: false,
    };

    /// The page that a reference leads to: its normal form without a default port and a fragment.
    pub const PAGE: KeyForm = KeyForm {
        normalized: true,
        without_default_port: true,
        without_fragment: true,
    };
}

/// Ends a text, and stands for an absent component.
pub(crate) const END: &[u8] = b"\x01";

/// Precedes a present component.
pub(crate) const PRESENT: &[u8] = b"\x02";

/// The digit of a number below 16.
fn digit_of(n: u8) -> u8
    requires { n < 16 }
    ensures { result ≡ digit_char n }
{
    if n < 10 { b'0' + n } else { b'a' - 10 + n }
}

/// Puts the canonical spelling of a text and the byte that ends it.
pub(crate) fn prepend_ended(case: Case, text: &[u8], out: &mut [u8], len: usize) -> usize
    ensures room { length out.new ≡ length out.old }
    ensures puts { Puts (spec.ended (canonical_in case text.now)) out.old len out.new result }
{
    let len = prepend(END, out, len);
    prepend_formed(Form::Canonical, case, text, out, len)
}

/// Puts an optional text.
pub(crate) fn prepend_optional<K: TextKind>(
    text: Option<&Text<'_, K>>,
    out: &mut [u8],
    len: usize,
) -> usize
    ensures room { length out.new ≡ length out.old }
    ensures puts { Puts (spec.optional spec.ended (option_map (canonical_in K.case) (option_copied text.entry))) out.old len out.new result }
{
    match text {
        Some(text) => {
            let len = prepend_ended(K::case(), text.as_bytes(), out, len);
            prepend(PRESENT, out, len)
        }
        None => prepend(END, out, len),
    }
}

/// Puts the scheme, if there is one.
pub(crate) fn prepend_scheme(scheme: &Option<Scheme<'_>>, out: &mut [u8], len: usize) -> usize
    ensures room { length out.new ≡ length out.old }
    ensures puts { Puts (spec.optional spec.ended (option_map schemes.canonical_text scheme.now)) out.old len out.new result }
{
    match scheme {
        Some(scheme) => {
            let len = prepend_ended(Case::Lowered, scheme.as_str().as_bytes(), out, len);
            prepend(PRESENT, out, len)
        }
        None => prepend(END, out, len),
    }
}

/// The five decimal digits of a port.
fn port_digits(port: u16) -> [u8; 5]
    ensures { result ≡ spec.digits 10 5 port }
{
    let thousands = port % 10_000;
    let hundreds = thousands % 1_000;
    let tens = hundreds % 100;
    [
        digit_of((port / 10_000) as u8),
        digit_of((thousands / 1_000) as u8),
        digit_of((hundreds / 100) as u8),
        digit_of((tens / 10) as u8),
        digit_of((tens % 10) as u8),
    ]
}

/// The two hexadecimal digits of an octet.
fn octet_digits(octet: u8) -> [u8; 2]
    ensures { result ≡ spec.digits 16 2 octet }
{
    [digit_of(octet / 16), digit_of(octet % 16)]
}

/// The four hexadecimal digits of a segment.
fn segment_digits(segment: u16) -> [u8; 4]
    ensures { result ≡ spec.digits 16 4 segment }
{
    let below = segment % 0x1000;
    let last = below % 0x100;
    [
        digit_of((segment / 0x1000) as u8),
        digit_of((below / 0x100) as u8),
        digit_of((last / 0x10) as u8),
        digit_of((last % 0x10) as u8),
    ]
}

/// Puts a port, if there is one.
pub(crate) fn prepend_port(port: Option<u16>, out: &mut [u8], len: usize) -> usize
    ensures room { length out.new ≡ length out.old }
    ensures puts { Puts (spec.optional (spec.digits 10 5) port) out.old len out.new result }
{
    match port {
        Some(port) => {
            let len = prepend(&port_digits(port), out, len);
            prepend(PRESENT, out, len)
        }
        None => prepend(END, out, len),
    }
}

/// Puts the digits of an octet.
fn prepend_octet(octet: u8, out: &mut [u8], len: usize) -> usize
    ensures room { length out.new ≡ length out.old }
    ensures puts { Puts (spec.digits 16 2 octet) out.old len out.new result }
{
    prepend(&octet_digits(octet), out, len)
}

/// Puts the digits of a segment.
fn prepend_segment(segment: u16, out: &mut [u8], len: usize) -> usize
    ensures room { length out.new ≡ length out.old }
    ensures puts { Puts (spec.digits 16 4 segment) out.old len out.new result }
{
    prepend(&segment_digits(segment), out, len)
}

/// Puts the digits of four octets.
fn prepend_four(a: u8, b: u8, c: u8, d: u8, out: &mut [u8], len: usize) -> usize
    ensures room { length out.new ≡ length out.old }
    ensures puts { Puts (flat_map (spec.digits 16 2) (a ∷ b ∷ c ∷ d ∷ [])) out.old len out.new result }
{
    let len = prepend_octet(d, out, len);
    let len = prepend_octet(c, out, len);
    let len = prepend_octet(b, out, len);
    prepend_octet(a, out, len)
}

/// Puts the digits of an IPv4 address.
pub(crate) fn prepend_octets(address: Ipv4Addr, out: &mut [u8], len: usize) -> usize
    ensures room { length out.new ≡ length out.old }
    ensures puts { Puts (flat_map (spec.digits 16 2) address) out.old len out.new result }
{
    let [a, b, c, d] = address.octets();
    prepend_four(a, b, c, d, out, len)
}

/// Puts the digits of segments.
fn prepend_each(segments: &[u16], out: &mut [u8], len: usize) -> usize
    ensures room { length out.new ≡ length out.old }
    ensures puts { Puts (flat_map (spec.digits 16 4) segments.now) out.old len out.new result }
{
    let mut total = len;
    for i in (0..segments.len()).rev() {
        total = prepend_segment(segments[i], out, total);
    }
    total
}

/// Puts the digits of an IPv6 address.
pub(crate) fn prepend_segments(address: Ipv6Addr, out: &mut [u8], len: usize) -> usize
    ensures room { length out.new ≡ length out.old }
    ensures puts { Puts (flat_map (spec.digits 16 4) address) out.old len out.new result }
{
    prepend_each(&address.segments(), out, len)
}

/// Puts a host.
fn prepend_host(host: &Host<'_>, out: &mut [u8], len: usize) -> usize
    ensures room { length out.new ≡ length out.old }
    ensures puts { Puts (spec.host_key host.now) out.old len out.new result }
{
    match host {
        Host::IPv4Address(address) => {
            let len = prepend_octets(*address, out, len);
            prepend(b"4", out, len)
        }
        Host::IPv6Address(address) => {
            let len = prepend_segments(*address, out, len);
            prepend(b"6", out, len)
        }
        Host::IPvFuture(address) => {
            let len = prepend_ended(Case::Lowered, address.as_str().as_bytes(), out, len);
            prepend(b"7", out, len)
        }
        Host::RegisteredName(name) => {
            let len = prepend_ended(Case::Lowered, name.as_str().as_bytes(), out, len);
            prepend(b"1", out, len)
        }
    }
}

/// Puts an authority with this port in the place of its own, if there is an authority.
fn prepend_authority(
    authority: &Option<Authority<'_>>,
    port: Option<u16>,
    out: &mut [u8],
    len: usize,
) -> usize
    ensures room { length out.new ≡ length out.old }
    ensures puts { Puts (spec.optional (λ a. a) (option_map (λ a. spec.authority_key (with_port a port)) authority.now)) out.old len out.new result }
{
    match authority {
        Some(authority) => {
            let len = prepend_port(port, out, len);
            let len = prepend_host(authority.host(), out, len);
            let len = prepend_optional(authority.password(), out, len);
            let len = prepend_optional(authority.username(), out, len);
            prepend(PRESENT, out, len)
        }
        None => prepend(END, out, len),
    }
}

/// The sort key of a view, in one form.
#[derive(Drop)]
struct KeyText<'v, 't> {
    view: &'v ReferenceView<'t>,
    form: KeyForm,
}

impl<'v, 't> KeyText<'v, 't> {
    /// The default port of the scheme, if there is a scheme and it has one.
    fn default_port(&self) -> Option<u16>
        ensures { result ≡ default_port_of self.now.view.now.parts }
    {
        self.view.scheme()?.default_port()
    }

    /// The port that the key has.
    fn port(&self) -> Option<u16>
        ensures { result ≡ spec.key_port self.now.form self.now.view.now.parts }
    {
        let port = self.view.port();
        if self.form.without_default_port && port.is_some() && port == self.default_port() {
            None
        } else {
            port
        }
    }

    /// Puts the fragment, if the key has one, at the end of the buffer.
    fn prepend_fragment(&self, out: &mut [u8]) -> usize
        ensures room { length out.new ≡ length out.old }
        ensures ends { EndsWith out.new result (spec.optional spec.ended (spec.key_fragment self.now.form.without_fragment self.now.view.now.parts)) }
    {
        if self.form.without_fragment {
            prepend(END, out, 0)
        } else {
            prepend_optional(Held(self.view.fragment()).0.as_ref(), out, 0)
        }
    }

    /// Puts the path and the byte that ends it.
    fn prepend_path(&self, out: &mut [u8], len: usize) -> usize
        ensures room { length out.new ≡ length out.old }
        ensures puts { Puts (spec.ended (spec.key_path self.now.form.normalized self.now.view.now.parts)) out.old len out.new result }
    {
        let view = self.view;
        // What the view has is valid, which is known once its text is read.
        let _text = view.as_str();
        let path = view.path().as_bytes();
        let len = prepend(END, out, len);
        if self.form.normalized {
            let context = PathContext {
                has_scheme: view.has_scheme(),
                has_authority: view.has_authority(),
            };
            prepend_normal_path(path, context, out, len)
        } else {
            prepend_formed(Form::Canonical, Case::Kept, path, out, len)
        }
    }
}

impl<'v, 't> PutText for KeyText<'v, 't> {
    ghost can_be_put = { λ _. ⊤ };

    ghost text = { λ s. spec.sort_key (spec.in_form s.form s.view.now.parts) };

    fn put(&self, out: &mut [u8]) -> usize {
        let view = self.view;
        // What the view has is valid, which is known once its text is read.
        let _text = view.as_str();
        let len = self.prepend_fragment(out);
        let len = prepend_optional(Held(view.query()).0.as_ref(), out, len);
        let len = self.prepend_path(out, len);
        let len = prepend_authority(&Held(view.authority()).0, self.port(), out, len);
        let len = prepend_scheme(&Held(view.scheme()).0, out, len);
        prepend(b"1", out, len)
    }
}

/// How many bytes a key usually has beyond the reference's.
const MORE: usize = 24;

/// Writes the sort key of a reference to the start of the buffer, and returns its length in bytes; what
/// follows it in the buffer is unchanged. RFC 3986, section 6.2.2.
///
/// If the buffer is too small, it is unchanged, and the error is
/// [`TooSmall`](BufferError::TooSmall) with the length needed; so a call with an empty buffer
/// returns the length. Does not allocate.
///
/// ```
/// let view = ReferenceView::try_from_str("HTTP://h/%7e")?;
/// let mut buffer = [0; 64];
/// let len = sort_key_into(&view, KeyForm::EXACT, &mut buffer)?;
/// assert!(&buffer[..len] == b"1\x02http\x01\x02\x01\x011h\x01\x01/~\x01\x01\x01".as_slice());
/// ```
pub fn sort_key_into(
    view: &ReferenceView<'_>,
    form: KeyForm,
    out: &mut [u8],
) -> Result<usize, BufferError>
    ensures { Writes (spec.sort_key (spec.in_form form view.now.parts)) result out.old out.new }
{
    let key = KeyText { view, form };
    write(&key, view.as_str().len().saturating_add(MORE), out)
}

/// The sort key of a reference. Allocates once, exactly its length; fails only if memory runs out.
///
/// ```
/// let view = ReferenceView::try_from_str("a?b")?;
/// let key = sort_key_to_string(alloc, &view, KeyForm::EXACT)?;
/// assert_eq!(key.as_bytes(), b"1\x01\x01a\x01\x02b\x01\x01".as_slice());
/// ```
pub fn sort_key_to_string(
    alloc: Global,
    view: &ReferenceView<'_>,
    form: KeyForm,
) -> Result<String, AllocError>
    ensures { IfOk result (λ s. string_bytes s ≡ spec.sort_key (spec.in_form form view.now.parts)) }
{
    make_string(alloc, &KeyText { view, form })
}
