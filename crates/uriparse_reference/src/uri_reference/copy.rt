//! Copies of a reference. They allocate the list of segments, if there is more than one.
ghost use Rattle.std.specs.Prelude.{◌≡◌, IfOk, IsOk, length, option_copied};

use super::URIReference;
use std::alloc::{AllocError, Global};
use uriparse_authority::authority::Authority;
use uriparse_path::path::Path;
use uriparse_scheme::scheme::Scheme;
use uriparse_text::fragment::Fragment;
use uriparse_text::internal::{Held, borrowed_text, owned_text};
use uriparse_text::query::Query;

/// A copy that borrows the scheme's text, if present.
pub(super) fn borrowed_scheme<'r>(scheme: Option<&'r Scheme<'_>>) -> Option<Scheme<'r>>
    ensures { result ≡ option_copied scheme.entry }
{
    match scheme {
        Some(scheme) => Some(scheme.as_borrowed()),
        None => None,
    }
}

/// A copy that borrows the authority's texts, if present.
pub(super) fn borrowed_authority<'r>(authority: Option<&'r Authority<'_>>) -> Option<Authority<'r>>
    ensures { result ≡ option_copied authority.entry }
{
    match authority {
        Some(authority) => Some(authority.as_borrowed()),
        None => None,
    }
}

/// The scheme, if present, owning its text.
fn owned_scheme(
    alloc: Global,
    scheme: Option<Scheme<'_>>,
) -> Result<Option<Scheme<'static>>, AllocError>
    ensures { IfOk result (λ s. s ≡ scheme.entry) }
{
    match scheme {
        Some(scheme) => Ok(Some(scheme.into_owned(alloc)?)),
        None => Ok(None),
    }
}

/// The authority, if present, owning its texts.
fn owned_authority(
    alloc: Global,
    authority: Option<Authority<'_>>,
) -> Result<Option<Authority<'static>>, AllocError>
    ensures { IfOk result (λ a. a ≡ authority.entry) }
{
    match authority {
        Some(authority) => Ok(Some(authority.into_owned(alloc)?)),
        None => Ok(None),
    }
}

/// The scheme and the authority, owning their texts.
fn owned_front(
    alloc: Global,
    scheme: Option<Scheme<'_>>,
    authority: Option<Authority<'_>>,
) -> Result<(Option<Scheme<'static>>, Option<Authority<'static>>), AllocError>
    ensures { IfOk result (λ x. (x.0 ≡ scheme.entry) × (x.1 ≡ authority.entry)) }
{
    let authority = Held(authority);
    let scheme = Held(owned_scheme(alloc, scheme)?);
    let authority = owned_authority(alloc, authority.take())?;
    Ok((scheme.take(), authority))
}

/// The path, the query and the fragment, owning their texts.
fn owned_tail(
    alloc: Global,
    path: Path<'_>,
    query: Option<Query<'_>>,
    fragment: Option<Fragment<'_>>,
) -> Result<
    (
        Path<'static>,
        Option<Query<'static>>,
        Option<Fragment<'static>>,
    ),
    AllocError,
>
    ensures { IfOk result (λ x. (x.0 ≡ path.entry) × (x.1 ≡ query.entry) × (x.2 ≡ fragment.entry)) }
{
    let (path, fragment) = (Held(path), Held(fragment));
    let query = Held(owned_text(alloc, query)?);
    let fragment = Held(owned_text(alloc, fragment.take())?);
    let path = path.take().into_owned(alloc)?;
    Ok((path, query.take(), fragment.take()))
}

impl<'r> URIReference<'r> {
    /// A copy that borrows the texts of this reference. Allocates once, for the list of segments,
    /// if there is more than one.
    pub fn to_borrowed(&self, alloc: Global) -> Result<URIReference<'_>, AllocError>
        ensures copy { IfOk result (λ r. r ≡ self.now) }

        // A path of one segment takes no memory.
        ensures takes_no_memory { length self.now.path.segments ≡ 1 → IsOk result }
    {
        let path = self.path.to_borrowed(alloc)?;
        Ok(URIReference {
            scheme: borrowed_scheme(self.scheme.as_ref()),
            authority: borrowed_authority(self.authority.as_ref()),
            path,
            query: borrowed_text(self.query.as_ref()),
            fragment: borrowed_text(self.fragment.as_ref()),
        })
    }

    /// The reference, owning its texts. Allocates for each borrowed text, and for the list of
    /// segments if there is more than one. If memory runs out, the reference is lost.
    pub fn into_owned(self, alloc: Global) -> Result<URIReference<'static>, AllocError>
        ensures { IfOk result (λ r. r ≡ self.entry) }
    {
        let (scheme, authority, path, query, fragment) = self.into_parts();
        let tail = Held((path, query, fragment));
        let front = Held(owned_front(alloc, scheme, authority)?);
        let (path, query, fragment) = tail.take();
        let (path, query, fragment) = owned_tail(alloc, path, query, fragment)?;
        let (scheme, authority) = front.take();
        Ok(URIReference {
            scheme,
            authority,
            path,
            query,
            fragment,
        })
    }

    /// A copy that owns its texts, in one call. Allocates a copy of each text and, for several
    /// segments, two lists of them, one of which is freed again.
    pub fn to_owned(&self, alloc: Global) -> Result<URIReference<'static>, AllocError>
        ensures { IfOk result (λ r. r ≡ self.now) }
    {
        self.to_borrowed(alloc)?.into_owned(alloc)
    }
}
