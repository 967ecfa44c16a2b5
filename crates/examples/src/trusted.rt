//! Which links may be followed unasked: over `https`, to the domains of a list, and not to where a name only looks
//! like one of them.
ghost use Rattle.std.specs.Option.{IsSomeAnd};
ghost use Rattle.std.specs.Prelude.{◌≡◌, ◌↔◌, IsTrue};
ghost use Rattle.uriparse.specs.Reference.{host_of};
ghost use Rattle.uriparse.specs.Uri.{IsNamed, https};
ghost use Rattle.examples.specs.Trusted.{IsTrusted, IsTrustedBelow, IsTrustedHost};

use crate::hosts::is_deceptive;
use uriparse::{Host, Scheme, URI};

/// Whether the scheme is `https`.
fn is_https(scheme: &Scheme<'_>) -> bool
    ensures { IsTrue result ↔ IsNamed https scheme.now }
{
    scheme.eq_str("https")
}

/// Whether the host is one of the domains or within one, and if it is a name, no reader takes it for another host. An address is trusted only
/// if it is one of the list.
fn is_trusted_host(host: &Host<'_>, domains: &[Host<'_>]) -> bool
    ensures { IsTrue result ↔ IsTrustedHost domains.now host.now }
{
    host.is_within_any(domains) && !is_deceptive(host)
}

/// Whether the URI has such a host.
fn has_trusted_host(uri: &URI<'_>, domains: &[Host<'_>]) -> bool
    ensures { IsTrue result ↔ IsSomeAnd (host_of uri.now) (IsTrustedHost domains.now) }
{
    match uri.host() {
        Some(host) => is_trusted_host(host, domains),
        None => false,
    }
}

/// Whether a link leads over `https` to one of the domains or to a host within one, at the port of `https`.
/// One in which another reader may read another URI is not trusted, nor one with user information. Does
/// not allocate.
///
/// ```
/// let domains = [Host::try_from_str("example.com")?];
/// let uri = URI::try_from_str(alloc, "https://WWW.Example.com:443/a")?;
/// assert!(is_trusted(&uri, &domains));
/// let other = URI::try_from_str(alloc, "https://example.com@evil.org/")?;
/// assert!(!is_trusted(&other, &domains));
/// let other = URI::try_from_str(alloc, "https://evilexample.com/")?;
/// assert!(!is_trusted(&other, &domains));
/// ```
pub fn is_trusted(uri: &URI<'_>, domains: &[Host<'_>]) -> bool
    ensures { IsTrue result ↔ IsTrusted domains.now uri.now }
{
    is_https(uri.scheme())
        && uri.disagreement().is_none()
        && has_trusted_host(uri, domains)
        && uri.port_or_default() == Some(443)
}

/// Whether a link [is trusted](is_trusted) and below a page: `..;` and `%2f` lead a proxy and the server behind it to
/// different places, so a link with these in a segment after the directory, or in one that a `..` removes, is not.
/// Follow its normal form, or the target of `resolve`, since not every server takes `%2e%2e` for `..`. Does not
/// allocate.
///
/// ```
/// let domains = [Host::try_from_str("example.com")?];
/// let page = URI::try_from_str(alloc, "https://example.com/app/")?;
/// let uri = URI::try_from_str(alloc, "https://example.com/app/a?b")?;
/// assert!(is_trusted_below(&uri, &domains, &page));
/// let other = URI::try_from_str(alloc, "https://example.com/app/%2e%2e/admin")?;
/// assert!(!is_trusted_below(&other, &domains, &page));
/// ```
pub fn is_trusted_below(uri: &URI<'_>, domains: &[Host<'_>], page: &URI<'_>) -> bool
    ensures { IsTrue result ↔ IsTrustedBelow domains.now page.now uri.now }
{
    is_trusted(uri, domains) && uri.is_within(page)
}
