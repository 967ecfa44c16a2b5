//! A redirect checker: whether a response's `Location` stays at an allowed authority, and its scheme is kept or `https`.
ghost use Rattle.std.specs.Prelude.{◌≡◌, ◌↔◌, IsTrue, IfErr, IfOk, MatchResult, Some};
ghost use Rattle.uriparse.specs.Reference.{Parts};
ghost use Rattle.uriparse.specs.Target.{target};
ghost use Rattle.examples.specs.declared.redirects.RedirectError.TheVariants.{Memory};
ghost use Rattle.examples.specs.Redirects.{GoesTo, IsAt, KeepsScheme, MayFollow};
ghost use Rattle.examples.specs.Redirects as spec;

use std::alloc::{AllocError, Global};
use thiserror::Error;
use uriparse::{Authority, URI, URIError, URIReference, URIReferenceError};

/// Why a redirect isn't followed.
#[derive(Debug, Drop, Error)]
pub enum RedirectError {
    /// The `Location` is not a reference.
    #[error("location: {0}")]
    Location(URIReferenceError),
    /// The `Location` has no target against the request's URI.
    #[error("target: {0}")]
    Target(URIError),
    /// The target has no authority, or one that differs from the allowed one.
    #[error("the target is elsewhere")]
    Elsewhere,
    /// The target's scheme is neither that of the request nor `https`.
    #[error("the target has another scheme")]
    Scheme,
    /// Memory ran out for the target's own strings.
    #[error("out of memory")]
    Memory,
}

impl RedirectError {
    /// Whether memory ran out, so that the redirect is not at fault and may be followed later.
    pub fn is_out_of_memory(&self) -> bool
        ensures { IsTrue result ↔ spec.IsOutOfMemory self.now }
    {
        match self {
            RedirectError::Memory => true,
            RedirectError::Location(error) => error.is_out_of_memory(),
            RedirectError::Target(error) => error.is_out_of_memory(),
            RedirectError::Elsewhere | RedirectError::Scheme => false,
        }
    }
}

/// The URI that a redirect leads to: the `Location`, which may be relative, is resolved against the
/// URI of the request, RFC 9110, section 10.2.2. It is followed only if the target's authority
/// equals the allowed one, so `EXAMPLE.com` is allowed for `example.com`, while another port or user
/// is elsewhere; and only if its scheme is the request's or `https`, so a redirect never leads from
/// `https` to `http`.
///
/// ```
/// let request = URI::try_from_str(alloc, "https://example.com/a")?;
/// let allowed = Authority::try_from_str("example.com")?;
/// let target = follow(alloc, &request, "//EXAMPLE.com/b", &allowed)?;
/// assert_eq!(target.to_string(alloc)?.as_str(), "https://EXAMPLE.com/b");
/// let elsewhere = follow(alloc, &request, "//example.com:8080/", &allowed);
/// assert!(matches!(elsewhere, Err(RedirectError::Elsewhere)));
/// let insecure = follow(alloc, &request, "http://example.com/b", &allowed);
/// assert!(matches!(insecure, Err(RedirectError::Scheme)));
/// ```
pub fn follow(
    alloc: Global,
    request: &URI<'_>,
    location: &str,
    allowed: &Authority<'_>,
) -> Result<URI<'static>, RedirectError>
    // What is returned is where the redirect goes, and is allowed.
    ensures followed { IfOk result (λ t. GoesTo request.now location.now t × MayFollow request.now allowed.now t) }

    // What is allowed is followed, unless memory runs out.
    ensures only { (t : Parts) → GoesTo request.now location.now t → MayFollow request.now allowed.now t → spec.IsUnlessWant result t }

    // Each error has its own reason.
    ensures refused { IfErr result (λ e. spec.Refuses request.now location.now allowed.now e) }
{
    match URIReference::try_from_str(alloc, location) {
        Ok(reference) => follow_to(alloc, request, &reference, allowed),
        Err(error) => Err(RedirectError::Location(error)),
    }
}

/// Follows a redirect whose `Location` was read, as [`follow`] does.
fn follow_to(
    alloc: Global,
    request: &URI<'_>,
    location: &URIReference<'_>,
    allowed: &Authority<'_>,
) -> Result<URI<'static>, RedirectError>
    ensures { spec.Follows (target request.now location.now) request.now allowed.now result }
{
    match request.resolve(alloc, location) {
        Ok(target) => own_if_allowed(alloc, request, target, allowed),
        Err(error) => Err(RedirectError::Target(error)),
    }
}

/// The target, if a redirect may lead there.
fn own_if_allowed(
    alloc: Global,
    request: &URI<'_>,
    target: URI<'_>,
    allowed: &Authority<'_>,
) -> Result<URI<'static>, RedirectError>
    ensures { spec.Follows (Some target.entry) request.now allowed.now result }
{
    if !is_at(&target, allowed) {
        return Err(RedirectError::Elsewhere);
    }
    if !keeps_scheme(request, &target) {
        return Err(RedirectError::Scheme);
    }
    own(alloc, target)
}

/// The target, with texts of its own.
fn own(alloc: Global, target: URI<'_>) -> Result<URI<'static>, RedirectError>
    ensures { MatchResult result (λ t. t ≡ target.entry) (λ e. e ≡ Memory) }
{
    match target.into_owned(alloc) {
        Ok(target) => Ok(target),
        Err(AllocError) => Err(RedirectError::Memory),
    }
}

/// Whether the target's scheme is that of the request, or `https`.
fn keeps_scheme(request: &URI<'_>, target: &URI<'_>) -> bool
    ensures { IsTrue result ↔ KeepsScheme request.now target.now }
{
    target.scheme().eq_str("https") || target.scheme() == request.scheme()
}

/// Whether the URI has an authority that equals this one.
fn is_at(uri: &URI<'_>, allowed: &Authority<'_>) -> bool
    ensures { IsTrue result ↔ IsAt allowed.now uri.now }
{
    match uri.authority() {
        Some(authority) => authority == allowed,
        None => false,
    }
}
