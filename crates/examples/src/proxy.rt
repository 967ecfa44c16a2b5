//! The target of a request to a proxy: a web URI with a host. And what of it is forwarded, if anything is.
//!
//! ```
//! let target = proxy_target(alloc, "HTTP://example.com/a?b")?;
//! assert!(target.host().is_some());
//! let refused = proxy_target(alloc, "ftp://example.com/a");
//! assert!(matches!(refused, Err(ProxyError::Scheme)));
//! ```
ghost use Rattle.std.specs.Prelude.{◌≡◌, ◌↔◌, IsTrue, IfOk, IfErr, MatchOption, MatchResult, Ok, string_bytes};
ghost use Rattle.std.specs.Option.{IsSomeAnd};
ghost use Rattle.uriparse.specs.Normal.{normal};
ghost use Rattle.uriparse.specs.Readings.{IsUnless};
ghost use Rattle.uriparse.specs.PathError.TheVariants.{OutOfMemory};
ghost use Rattle.uriparse.specs.Reference.{Parts, Spells, host_of, print};
ghost use Rattle.uriparse.specs.declared.uri.error.URIError.TheVariants as uris;
ghost use Rattle.examples.specs.declared.proxy.ProxyError.TheVariants as errors;
ghost use Rattle.examples.specs.Hosts.{IsPlainName};
ghost use Rattle.examples.specs.Proxy.{HasHost, IsProxyTarget, IsReason, IsWebScheme, MayBeForwarded, Refuses};

use crate::hosts::is_plain_name;
use std::alloc::{AllocError, Global};
use thiserror::Error;
use uriparse::{ReferenceView, Scheme, URI, URIError, URIView};

/// Why a text is not a proxy's target.
#[derive(Debug, Drop, Error)]
pub enum ProxyError {
    /// The text is not a URI, or memory ran out while reading it.
    #[error("{0}")]
    Text(URIError),
    #[error("the target has a fragment")]
    Fragment,
    #[error("the target's scheme is neither http nor https")]
    Scheme,
    #[error("the target has no host")]
    Host,
}

/// Reads the target of a request to a proxy: a URI whose scheme is `http` or `https`, with a host
/// that isn't empty, and without a fragment. RFC 9112, section 3.2.2.
pub fn proxy_target(alloc: Global, text: &str) -> Result<URI<'_>, ProxyError>
    // What is returned is what the text spells, and a target.
    ensures accepted { IfOk result (λ u. Spells text.now u × IsProxyTarget u) }

    // A text that spells a target is accepted, unless memory runs out.
    ensures only { (u : Parts) → Spells text.now u → IsProxyTarget u → IsUnless (errors.Text (uris.Path OutOfMemory)) result (Ok u) }

    // Each error has its own reason.
    ensures refused { IfErr result (λ e. Refuses text.now e) }
{
    match URI::try_from_str(alloc, text) {
        Ok(uri) => accept(uri),
        Err(error) => Err(ProxyError::Text(error)),
    }
}

/// The URI, if it is a target.
fn accept(uri: URI<'_>) -> Result<URI<'_>, ProxyError>
    ensures { MatchResult result (λ u. (u ≡ uri.entry) × IsProxyTarget uri.entry) (λ e. IsReason uri.entry e) }
{
    match refusal(&uri) {
        None => Ok(uri),
        Some(error) => Err(error),
    }
}

/// Why the URI is not a target, if it is not one.
fn refusal(uri: &URI<'_>) -> Option<ProxyError>
    ensures { MatchOption result (IsProxyTarget uri.now) (λ e. IsReason uri.now e) }
{
    if uri.has_fragment() {
        return Some(ProxyError::Fragment);
    }
    if !is_web_scheme(uri.scheme()) {
        return Some(ProxyError::Scheme);
    }
    if !has_host(uri) {
        return Some(ProxyError::Host);
    }
    None
}

/// Whether the scheme is `http` or `https`, in any case.
fn is_web_scheme(scheme: &Scheme<'_>) -> bool
    ensures { IsTrue result ↔ IsWebScheme scheme.now }
{
    scheme.eq_str("http") || scheme.eq_str("https")
}

/// Whether the URI has a host that isn't empty.
fn has_host(uri: &URI<'_>) -> bool
    ensures { IsTrue result ↔ HasHost uri.now }
{
    match uri.host() {
        Some(host) => !host.is_empty(),
        None => false,
    }
}

/// Whether the reference has a host, which is a name that readers take for no other host.
fn has_plain_name(view: &ReferenceView<'_>) -> bool
    ensures { IsTrue result ↔ IsSomeAnd (host_of view.now.parts) IsPlainName }
{
    match view.host() {
        Some(host) => is_plain_name(&host),
        None => false,
    }
}

/// Whether a proxy may forward a request for this target.
fn is_forwarded(target: &URIView<'_>, served: &URIView<'_>) -> bool
    ensures { IsTrue result ↔ MayBeForwarded served.now.parts target.now.parts }
{
    let view = target.as_reference_view();
    target.is_within(served) && !view.has_username() && has_plain_name(view)
}

/// What a proxy forwards for this target: its normal form, if the target is below the URI that the proxy serves, also where servers
/// disagree on what `..;` and `%2f` mean, has no user information, and its host is a name, which readers take for no other host.
/// Otherwise `None`. The target itself isn't forwarded, since not every server takes `%2e%2e` for `..`. Allocates once.
///
/// ```
/// let served = URIView::try_from_str("http://example.com/app/")?;
/// let target = URIView::try_from_str("http://example.com:/app/x/%2e%2e/a?b")?;
/// let forwarded = may_be_forwarded(alloc, &target, &served)?;
/// assert_eq!(forwarded.unwrap().as_str(), "http://example.com/app/a?b");
/// let target = URIView::try_from_str("http://example.com/app/..;/../a")?;
/// assert!(may_be_forwarded(alloc, &target, &served)?.is_none());
/// ```
pub fn may_be_forwarded(
    alloc: Global,
    target: &URIView<'_>,
    served: &URIView<'_>,
) -> Result<Option<String>, AllocError>
    ensures { IfOk result (λ o. MatchOption o (MayBeForwarded served.now.parts target.now.parts → ⊥) (λ s. MayBeForwarded served.now.parts target.now.parts × (string_bytes s ≡ print (normal target.now.parts)))) }
{
    if is_forwarded(target, served) {
        Ok(Some(target.normalize_to_string(alloc)?))
    } else {
        Ok(None)
    }
}
