//! Where readers of a URI may disagree: RFC 3986, section 7, next to the URL Standard.
ghost use Rattle.std.specs.Prelude.{◌≡◌, Some, bytes_eq, is_some, not, option_copied};
ghost use Rattle.std.specs.List.{list_any};
ghost use Rattle.std.specs.Str.{str_to_ascii_lowercase};
ghost use Rattle.uriparse_authority.specs.Host as hosts;
ghost use Rattle.uriparse_authority.specs.Within.{has_escape, may_be_numeric};
ghost use Rattle.uriparse_reference.specs.Reference.{host_of, username_of};
ghost use Rattle.uriparse_scheme.specs.Scheme as schemes;
ghost use Rattle.uriparse.specs.Disagreement as spec;
ghost use Rattle.uriparse.specs.Web.{has_encoded_label, is_encoded_label, special_port};

use super::{URI, URIView};
use uriparse_authority::authority::Host;
use uriparse_path::internal::SegmentSequence;
use uriparse_path::path::Segments;
use uriparse_reference::uri_reference::ReferenceView;
use uriparse_scheme::scheme::Scheme;
use uriparse_text::internal::{Held, split_at_delimiter, without_delimiter};

/// Why another reader may read another URI in the same string, such as a browser, a library by the
/// [URL Standard](https://url.spec.whatwg.org/) or an older one.
#[derive(Clone, Copy, Debug, PartialEq, Eq, Hash)]
pub enum Disagreement {
    /// The scheme isn't `http`, `https`, `ws`, `wss` or `ftp`. Readers by the URL Standard read any
    /// other one by other rules.
    Scheme,
    /// There is no authority, or its host is empty, as in `http:a.example` and `http:///a.example`.
    /// Readers by the URL Standard skip the slashes and take `a.example` for the host, or reject it.
    NoHost,
    /// The host is an address of a later version, as `[v1.a]`. The URL Standard rejects it.
    LaterAddress,
    /// The name of the host has an escape. Some readers decode it, and others look up the `%`.
    EscapedName,
    /// The last label of the host's name begins with a digit. Many readers take such names for
    /// addresses: `0x7f.1`, `2130706433` and `127.1` lead to `127.0.0.1`.
    NumericName,
    /// A label of the host's name begins with `xn--`: by the tables of Unicode that they have, readers
    /// accept it, reject it or show another name.
    EncodedName,
    /// A dot segment has an escape, as `%2e%2e`. Readers by the URL Standard and this library take it
    /// for `..`, and others for a name.
    EscapedDots,
    /// There is user information. Readers agree on it, but people take it for the host, as in
    /// `https://example.com@evil.example/`, and some programs reject it or pass it on.
    UserInformation,
}

/// Whether the text has an escape.
fn has_percent(text: &[u8]) -> bool
    ensures { result ≡ has_escape text.now }
{
    text.contains(&b'%')
}

/// Whether the label begins with `xn--`, in letters of either case.
fn begins_encoded(label: &[u8]) -> bool
    ensures { result ≡ is_encoded_label label.now }
{
    match label.split_at_checked(4) {
        Some((front, _)) => front.eq_ignore_ascii_case(b"xn--"),
        None => false,
    }
}

/// Whether a label of the name does.
fn has_encoded(name: &[u8]) -> bool
    ensures { result ≡ has_encoded_label name.now }
{
    let mut left = Some(name);
    'labels: while let Some(rest) = left {
        let (label, following) = split_at_delimiter(rest, b'.');
        if begins_encoded(label) {
            return true;
        }
        left = without_delimiter(following);
    }
    false
}

/// Whether a segment is a dot segment with an escape.
fn has_escaped_dots<'t, L: SegmentSequence<'t>>(segments: L) -> bool
    ensures { result ≡ list_any spec.is_escaped_dots (L.listed segments) }
{
    let mut left = segments;
    'segments: while let Some((segment, later)) = left.split() {
        let segment = Held(segment);
        if segment.0.is_dot_segment() && has_percent(segment.0.as_bytes()) {
            return true;
        }
        left = later;
    }
    false
}

/// Whether the scheme is the one of this name, which is in lower case.
fn is_named(scheme: &Scheme<'_>, name: &[u8]) -> bool
    requires { str_to_ascii_lowercase name.now ≡ name.now }
    ensures { result ≡ bytes_eq (schemes.canonical_text scheme.now) name.now }
{
    scheme.as_bytes().eq_ignore_ascii_case(name)
}

/// Whether the URL Standard calls the scheme special, apart from `file`.
fn is_special(scheme: &Scheme<'_>) -> bool
    ensures { result ≡ is_some (special_port (schemes.canonical_text scheme.now)) }
{
    is_named(scheme, b"http")
        || is_named(scheme, b"ws")
        || is_named(scheme, b"https")
        || is_named(scheme, b"wss")
        || is_named(scheme, b"ftp")
}

/// Whether there is a host that isn't empty.
fn has_host(host: Option<&Host<'_>>) -> bool
    ensures { result ≡ spec.host_passes (λ h. not (hosts.is_empty h)) (option_copied host.entry) }
{
    match host {
        Some(host) => !host.is_empty(),
        None => false,
    }
}

/// Whether the host is an address of a later version.
fn is_later_address(host: Option<&Host<'_>>) -> bool
    ensures { result ≡ spec.host_passes spec.is_future (option_copied host.entry) }
{
    match host {
        Some(Host::IPvFuture(_)) => true,
        _ => false,
    }
}

/// Whether the host is a name with an escape.
fn is_escaped_name(host: Option<&Host<'_>>) -> bool
    ensures { result ≡ spec.host_passes (spec.is_name has_escape) (option_copied host.entry) }
{
    match host {
        Some(Host::RegisteredName(name)) => has_percent(name.as_bytes()),
        _ => false,
    }
}

/// Whether the host is a name whose last label begins with a digit.
fn is_numeric_name(host: Option<&Host<'_>>) -> bool
    ensures { result ≡ spec.host_passes may_be_numeric (option_copied host.entry) }
{
    match host {
        Some(host) => host.may_be_numeric(),
        None => false,
    }
}

/// Whether the host is a name with a label that begins with `xn--`.
fn is_encoded_name(host: Option<&Host<'_>>) -> bool
    ensures { result ≡ spec.host_passes (spec.is_name has_encoded_label) (option_copied host.entry) }
{
    match host {
        Some(Host::RegisteredName(name)) => has_encoded(name.as_bytes()),
        _ => false,
    }
}

/// Whether readers may disagree for this reason on a URI with these components.
fn holds<'t, L: SegmentSequence<'t>>(
    reason: Disagreement,
    scheme: &Scheme<'_>,
    host: Option<&Host<'_>>,
    has_username: bool,
    segments: L,
) -> bool
    ensures { result ≡ spec.holds reason (Some scheme.now) (option_copied host.entry) has_username (L.listed segments) }
{
    match reason {
        Disagreement::Scheme => !is_special(scheme),
        Disagreement::NoHost => !has_host(host),
        Disagreement::LaterAddress => is_later_address(host),
        Disagreement::EscapedName => is_escaped_name(host),
        Disagreement::NumericName => is_numeric_name(host),
        Disagreement::EncodedName => is_encoded_name(host),
        Disagreement::EscapedDots => has_escaped_dots(segments),
        Disagreement::UserInformation => has_username,
    }
}

/// The first reason for which readers may disagree on a URI with these components.
fn first_reason<'t, L: SegmentSequence<'t>>(
    scheme: &Scheme<'_>,
    host: Option<&Host<'_>>,
    has_username: bool,
    segments: L,
) -> Option<Disagreement>
    ensures { result ≡ spec.first_reason (Some scheme.now) (option_copied host.entry) has_username (L.listed segments) }
{
    if !is_special(scheme) {
        Some(Disagreement::Scheme)
    } else if !has_host(host) {
        Some(Disagreement::NoHost)
    } else if is_later_address(host) {
        Some(Disagreement::LaterAddress)
    } else if is_escaped_name(host) {
        Some(Disagreement::EscapedName)
    } else if is_numeric_name(host) {
        Some(Disagreement::NumericName)
    } else if is_encoded_name(host) {
        Some(Disagreement::EncodedName)
    } else if has_escaped_dots(segments) {
        Some(Disagreement::EscapedDots)
    } else if has_username {
        Some(Disagreement::UserInformation)
    } else {
        None
    }
}

/// The first reason for which readers may disagree on a URI with this scheme, the authority of the
/// view and these segments.
fn reason_with(
    scheme: &Scheme<'_>,
    authority_of: &ReferenceView<'_>,
    segments: Segments<'_>,
) -> Option<Disagreement>
    ensures { result ≡ spec.first_reason (Some scheme.now) (host_of authority_of.now.parts) (is_some (username_of authority_of.now.parts)) segments.entry }
{
    let host = Held(authority_of.host());
    first_reason(
        scheme,
        host.0.as_ref(),
        authority_of.has_username(),
        segments,
    )
}

/// The first reason for which readers may disagree on the reference, with the scheme and the authority
/// that its target has.
fn placed_reason(base: &URIView<'_>, reference: &ReferenceView<'_>) -> Option<Disagreement>
    ensures { result ≡ spec.disagreement (spec.placed base.now.parts reference.now.parts) }
{
    let own = Held(reference.scheme());
    let segments = reference.segments();
    if let Some(scheme) = &own.0 {
        return reason_with(scheme, reference, segments);
    }
    let scheme = Held(base.scheme());
    if reference.has_authority() {
        reason_with(&scheme.0, reference, segments)
    } else {
        reason_with(&scheme.0, base.as_reference_view(), segments)
    }
}

impl Disagreement {
    /// All of them, in the order in which [`URI::disagreement`] looks for the first.
    pub const ALL: [Disagreement; 8] = [
        Disagreement::Scheme,
        Disagreement::NoHost,
        Disagreement::LaterAddress,
        Disagreement::EscapedName,
        Disagreement::NumericName,
        Disagreement::EncodedName,
        Disagreement::EscapedDots,
        Disagreement::UserInformation,
    ];
}

impl<'u> URI<'u> {
    /// Whether readers may disagree on the URI for this reason. Does not allocate.
    ///
    /// ```
    /// let uri = URI::try_from_str(alloc, "https://user@127.1/")?;
    /// assert!(uri.disagrees(Disagreement::NumericName));
    /// assert!(uri.disagrees(Disagreement::UserInformation));
    /// ```
    pub fn disagrees(&self, reason: Disagreement) -> bool
        ensures { result ≡ spec.disagrees reason self.now }
    {
        holds(
            reason,
            self.scheme(),
            self.host(),
            self.has_username(),
            self.path().segments(),
        )
    }

    /// Why another reader may read another URI in the same string, or `None` if all agree: what
    /// the URL Standard reads there has the same scheme, host and port, the same path without its dot
    /// segments, and the same query and fragment, and there is no user information. It is the first
    /// of [`Disagreement::ALL`] that holds. RFC 3986, section 7. Does not allocate.
    ///
    /// Check it before you hand a URI to a reader of another kind: one program checks the host, and
    /// another one connects. Some reasons are cautious, so that a URI on which readers agree may have
    /// one: `http://0x.example.com/` has none, and `http://example.4u/` has.
    ///
    /// ```
    /// let uri = URI::try_from_str(alloc, "https://example.com/a")?;
    /// assert!(uri.disagreement().is_none());
    /// let uri = URI::try_from_str(alloc, "http:///example.com/a")?;
    /// assert_eq!(uri.disagreement(), Some(Disagreement::NoHost));
    /// ```
    pub fn disagreement(&self) -> Option<Disagreement>
        ensures { result ≡ spec.disagreement self.now }
    {
        first_reason(
            self.scheme(),
            self.host(),
            self.has_username(),
            self.path().segments(),
        )
    }
}

impl<'u> URIView<'u> {
    /// Whether readers may disagree on the URI for this reason, as [`URI::disagrees`](URI::disagrees)
    /// reports. Does not allocate.
    ///
    /// ```
    /// let view = URIView::try_from_str("https://xn--bcher-kva.example/")?;
    /// assert!(view.disagrees(Disagreement::EncodedName));
    /// ```
    pub fn disagrees(&self, reason: Disagreement) -> bool
        ensures { result ≡ spec.disagrees reason self.now.parts }
    {
        let view = self.as_reference_view();
        let host = Held(view.host());
        holds(
            reason,
            &Held(self.scheme()).0,
            host.0.as_ref(),
            view.has_username(),
            view.segments(),
        )
    }

    /// Why another reader may read another URI in the same string, as
    /// [`URI::disagreement`](URI::disagreement) says. Does not allocate.
    ///
    /// ```
    /// let view = URIView::try_from_str("https://example.com/a/%2e%2e/b")?;
    /// assert_eq!(view.disagreement(), Some(Disagreement::EscapedDots));
    /// ```
    pub fn disagreement(&self) -> Option<Disagreement>
        ensures { result ≡ spec.disagreement self.now.parts }
    {
        let view = self.as_reference_view();
        let host = Held(view.host());
        first_reason(
            &Held(self.scheme()).0,
            host.0.as_ref(),
            view.has_username(),
            view.segments(),
        )
    }

    /// Whether readers agree on this URI, and on where the reference leads from it: neither this URI
    /// nor the target has a [disagreement](URI::disagreement), and no dot segment of the reference has an
    /// escape. RFC 3986, section 5.2. Does not allocate.
    ///
    /// So `https:b` doesn't lead alike from `https://example.com/a`, and neither does `///example.org`:
    /// readers by the URL Standard take the one for a path and the other for a host.
    ///
    /// ```
    /// let base = URIView::try_from_str("https://example.com/a")?;
    /// assert!(base.leads_alike(&ReferenceView::try_from_str("../b?c")?));
    /// assert!(!base.leads_alike(&ReferenceView::try_from_str("///example.org/b")?));
    /// ```
    pub fn leads_alike(&self, reference: &ReferenceView<'_>) -> bool
        ensures { result ≡ spec.leads_alike self.now.parts reference.now.parts }
    {
        self.disagreement().is_none() && placed_reason(self, reference).is_none()
    }
}
