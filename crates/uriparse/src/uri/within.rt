//! Whether a URI is below another one: RFC 3986, sections 3.3, 6.2.2 and 6.2.3.
ghost use Rattle.std.specs.Prelude.{◌≡◌, ◌↔◌, false, IfSome, IsTrue, Some, bytes_eq, option_copied};
ghost use Rattle.std.specs.Option.{option_eq};
ghost use Rattle.std.specs.Ordering.{on};
ghost use Rattle.uriparse_text.specs.Canonical.{canonical_in};
ghost use Rattle.uriparse_authority.specs.Authority.{each_alike, key, with_port};
ghost use Rattle.uriparse_authority.specs.Port.{IsPort};
ghost use Rattle.uriparse_path.specs.Normal.{pnormal};
ghost use Rattle.uriparse_path.specs.Path.{IsPath, has_hidden_root, spelled};
ghost use Rattle.uriparse_path.specs.Within.{IsPathWithin, removes_unclear};
ghost use Rattle.uriparse.specs.Within as spec;

use super::{URI, URIView};
use uriparse_authority::authority::Authority;
use uriparse_path::internal::{is_path_within, segments_of, split_root};
use uriparse_reference::uri_reference::ReferenceView;
use uriparse_scheme::scheme::Scheme;
use uriparse_text::internal::{Held, Text, TextKind};

/// Whether both are absent, or present and equal.
fn are_alike<K: TextKind>(left: Option<&Text<'_, K>>, right: Option<&Text<'_, K>>) -> bool
    ensures { result ≡ option_eq (on (canonical_in K.case) bytes_eq) (option_copied left.entry) (option_copied right.entry) }
{
    match (left, right) {
        (Some(one), Some(other)) => one == other,
        (None, None) => true,
        _ => false,
    }
}

/// Whether the authorities with these ports are spelled alike, component by component.
fn has_each_alike(
    left: &Authority<'_>,
    right: &Authority<'_>,
    port: Option<u16>,
    other_port: Option<u16>,
) -> bool
    ensures { result ≡ each_alike (with_port left.now port) (with_port right.now other_port) }
{
    are_alike(left.username(), right.username())
        && are_alike(left.password(), right.password())
        && left.host() == right.host()
        && port == other_port
}

/// Does nothing. Its contract states that the number, if there is one, is a port.
pub(super) fn assert_port(port: Option<u16>)
    ensures { IfSome port IsPort }
{
    match port {
        Some(_port) => {}
        None => {}
    }
}

/// Whether the authorities are equal with these ports.
fn is_same_authority(
    left: &Authority<'_>,
    right: &Authority<'_>,
    port: Option<u16>,
    other_port: Option<u16>,
) -> bool
    ensures { IsTrue result ↔ (key (with_port left.now port) ≡ key (with_port right.now other_port)) }
{
    // The authorities are valid, which is known once their hosts are read.
    let _host = left.host();
    let _other_host = right.host();
    assert_port(port);
    assert_port(other_port);
    has_each_alike(left, right, port, other_port)
}

/// Whether the schemes and the authorities are equal, with the ports that they use.
fn is_same_place(
    scheme: &Scheme<'_>,
    other_scheme: &Scheme<'_>,
    authority: Option<&Authority<'_>>,
    other_authority: Option<&Authority<'_>>,
) -> bool
    ensures { IsTrue result ↔ spec.IsSamePlace (Some scheme.now) (Some other_scheme.now) (option_copied authority.entry) (option_copied other_authority.entry) }
{
    if scheme != other_scheme {
        return false;
    }
    match (authority, other_authority) {
        (Some(one), Some(other)) => {
            let port = one.port().or(scheme.default_port());
            let other_port = other.port().or(other_scheme.default_port());
            is_same_authority(one, other, port, other_port)
        }
        (None, None) => true,
        _ => false,
    }
}

/// Whether the normal form of a path's text is in the directory of the other one's, and no `..` of the
/// path removes a segment on which readers disagree.
fn is_text_within(path: &[u8], base: &[u8]) -> bool
    requires path { IsPath path.now }
    requires base { IsPath base.now }
    requires shown { has_hidden_root (spelled path.now) ≡ false }
    requires shown_base { has_hidden_root (spelled base.now) ≡ false }
    ensures { IsTrue result ↔ (IsPathWithin (pnormal (spelled path.now) false) (pnormal (spelled base.now) false) × (removes_unclear (spelled path.now) ≡ false)) }
{
    let (absolute, _) = split_root(path);
    let (base_absolute, _) = split_root(base);
    is_path_within(
        absolute,
        segments_of(path),
        base_absolute,
        segments_of(base),
    )
}

/// Whether the URI of one view is below the URI of the other one.
fn is_view_within(
    view: &ReferenceView<'_>,
    base: &ReferenceView<'_>,
    scheme: &Scheme<'_>,
    base_scheme: &Scheme<'_>,
) -> bool
    requires scheme { view.now.parts.scheme ≡ Some scheme.now }
    requires base_scheme { base.now.parts.scheme ≡ Some base_scheme.now }
    ensures { IsTrue result ↔ spec.IsWithin view.now.parts base.now.parts }
{
    let _text = view.as_str();
    let _base_text = base.as_str();
    let authority = Held(view.authority());
    let base_authority = Held(base.authority());
    if !is_same_place(
        scheme,
        base_scheme,
        authority.0.as_ref(),
        base_authority.0.as_ref(),
    ) {
        return false;
    }
    is_text_within(view.path().as_bytes(), base.path().as_bytes())
}

impl<'u> URI<'u> {
    /// Whether the URI is below `base`: the schemes are equal, and the authorities, each with the
    /// port that it names or else the scheme's default port; and the path's normal form begins with
    /// the directory of the base's, through its last slash. The query and the fragment don't count.
    /// RFC 3986, sections 6.2.2 and 6.2.3. Does not allocate.
    ///
    /// Segments are compared whole and in canonical spelling, after dot segments are removed. So
    /// `/app/../admin` and `/app/%2e%2e/admin` are not below `/app/`, and `/appX` is not either.
    /// User information, if either has any, must be equal. A base whose path has no slash, such as
    /// `mailto:a@b`, has nothing below it but what has the same path.
    ///
    /// Servers disagree on some segments, so two kinds of URIs are never below `base`:
    ///
    /// - one whose normal form has [an ambiguous](uriparse_text::segment::Segment::is_ambiguous) segment
    ///   after the directory, such as `/app/..;/admin`;
    /// - one in whose path a `..` removes an ambiguous segment, an empty one or one with nothing before
    ///   its first `;`, such as `/app/..;/../a` or `/app//../admin`. Servers that drop what follows a
    ///   `;`, decode escapes or merge slashes before they remove dot segments read `/a` and `/admin`.
    ///
    /// Hand on the normal form, or the target of [`resolve`](crate::URIReference::resolve). A reader that
    /// doesn't take `%2e%2e` for `..` finds another path in the string that was checked.
    ///
    /// ```
    /// let base = URI::try_from_str(alloc, "https://example.com/app/")?;
    /// let below = URI::try_from_str(alloc, "HTTPS://EXAMPLE.com:443/x/../app/a?b#c")?;
    /// assert!(below.is_within(&base));
    /// let beside = URI::try_from_str(alloc, "https://example.com/app/%2e%2e/admin")?;
    /// assert!(!beside.is_within(&base));
    /// let unclear = URI::try_from_str(alloc, "https://example.com/app//../admin")?;
    /// assert!(!unclear.is_within(&base));
    /// ```
    pub fn is_within(&self, base: &URI<'_>) -> bool
        ensures { IsTrue result ↔ spec.IsWithin self.now base.now }
    {
        let path = self.reference.path();
        let base_path = base.reference.path();
        is_same_place(
            self.scheme(),
            base.scheme(),
            self.reference.authority(),
            base.reference.authority(),
        ) && is_path_within(
            path.is_absolute(),
            path.segments(),
            base_path.is_absolute(),
            base_path.segments(),
        )
    }
}

impl<'u> URIView<'u> {
    /// Whether the URI is below `base`, as [`URI::is_within`](URI::is_within) reports. Does not
    /// allocate.
    ///
    /// ```
    /// let base = URIView::try_from_str("https://example.com/app/")?;
    /// assert!(URIView::try_from_str("https://example.com/app/a?b")?.is_within(&base));
    /// assert!(!URIView::try_from_str("https://example.com/appX")?.is_within(&base));
    /// ```
    pub fn is_within(&self, base: &URIView<'_>) -> bool
        ensures { IsTrue result ↔ spec.IsWithin self.now.parts base.now.parts }
    {
        is_view_within(
            self.as_reference_view(),
            base.as_reference_view(),
            &Held(self.scheme()).0,
            &Held(base.scheme()).0,
        )
    }
}
