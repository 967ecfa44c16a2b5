//! A URI in its text, read without memory: RFC 3986, sections 3 and 5.2.
ghost use Rattle.std.specs.Prelude.{◌≡◌, IfOk, IsOk, Some, length, string_bytes};
ghost use Rattle.uriparse_reference.specs.Into.{Writes, WritesTarget};
ghost use Rattle.uriparse_reference.specs.Reference.{print};
ghost use Rattle.uriparse_reference.specs.Relate.{relative};
ghost use Rattle.uriparse_reference.specs.Target.{ResolvesTo};

use super::{URI, WithScheme};
use crate::view_of::ViewOf;
use std::alloc::{AllocError, Global};
use uriparse_reference::internal::{relativize_into, relativize_to_string};
use uriparse_reference::uri_reference::{BufferError, ReferenceView, TargetError};
use uriparse_scheme::scheme::Scheme;

/// A URI in its text: a [`ReferenceView`] with a scheme, so a base by its type. The calls that it
/// shares with views of relative references are at [`ViewOf`].
///
/// ```
/// let base = URIView::try_from_str("http://a/b/c/d;p?q")?;
/// let reference = ReferenceView::try_from_str("../g?y")?;
/// let mut buffer = [0; 64];
/// let len = base.resolve_into(&reference, &mut buffer)?;
/// assert!(&buffer[..len] == b"http://a/b/g?y".as_slice());
/// assert!(base.scheme() == Scheme::HTTP && base.as_reference_view().path() == "/b/c/d;p");
/// ```
pub type URIView<'u> = ViewOf<'u, WithScheme>;

impl<'u> URIView<'u> {
    /// The scheme.
    pub fn scheme(&self) -> Scheme<'u>
        ensures { self.now.parts.scheme ≡ Some result }
    {
        self.view.scheme().unwrap()
    }

    /// The URI, whose components borrow the text. Allocates only for the list of the path's
    /// segments, if there is more than one; no byte is checked again.
    pub fn to_uri(&self, alloc: Global) -> Result<URI<'u>, AllocError>
        ensures uri { IfOk result (λ u. u ≡ self.now.parts) }

        // A path of one segment takes no memory.
        ensures takes_no_memory { length self.now.parts.path.segments ≡ 1 → IsOk result }
    {
        self.to_value(alloc)
    }

    /// Resolves a reference against this URI, and writes the text of the target to the start of
    /// the buffer, as [`ReferenceView::resolve_into`] does. Does not allocate.
    ///
    /// On an error the buffer is unchanged. The error is
    /// [`TooManySegments`](BufferError::TooManySegments) if the merged paths have more segments
    /// than a path may have, else [`TooSmall`](BufferError::TooSmall) with the length needed if the
    /// buffer is too small.
    pub fn resolve_into(
        &self,
        reference: &ReferenceView<'_>,
        out: &mut [u8],
    ) -> Result<usize, BufferError>
        ensures { WritesTarget self.now.parts reference.now.parts result out.old out.new }
    {
        self.view.resolve_into(reference, out)
    }

    /// Resolves a reference against this URI, and returns the text of the target. Allocates once,
    /// exactly its length.
    ///
    /// The error is [`TooManySegments`](TargetError::TooManySegments) if the merged paths have more
    /// segments than a path may have, even if memory has run out, else
    /// [`OutOfMemory`](TargetError::OutOfMemory) if memory runs out.
    pub fn resolve_to_string(
        &self,
        alloc: Global,
        reference: &ReferenceView<'_>,
    ) -> Result<String, TargetError>
        ensures { ResolvesTo (λ t s. string_bytes s ≡ print t) self.now.parts reference.now.parts result }
    {
        self.view.resolve_to_string(alloc, reference)
    }

    /// Writes the text of the reference that leads from this URI to `uri` to the start of the
    /// buffer and returns its length in bytes; what follows it in the buffer is unchanged. The text
    /// is the one that [`URI::relativize`] makes. Does not allocate.
    ///
    /// If the buffer is too small, it is unchanged, and the error is
    /// [`TooSmall`](BufferError::TooSmall) with the length needed; so a call with an empty buffer
    /// returns the length. No other error is returned.
    ///
    /// ```
    /// let base = URIView::try_from_str("http://a/b/c/d;p?q")?;
    /// let uri = URIView::try_from_str("http://a/b/g#s")?;
    /// let mut buffer = [0; 64];
    /// let len = base.relativize_into(&uri, &mut buffer)?;
    /// assert!(&buffer[..len] == b"../g#s".as_slice());
    /// ```
    pub fn relativize_into(&self, uri: &URIView<'_>, out: &mut [u8]) -> Result<usize, BufferError>
        ensures { Writes (print (relative self.now.parts uri.now.parts)) result out.old out.new }
    {
        relativize_into(&self.view, &uri.view, out)
    }

    /// The text of the reference that leads from this URI to `uri`, as
    /// [`relativize_into`](URIView::relativize_into) writes it. Allocates once, exactly its length;
    /// fails only if memory runs out.
    pub fn relativize_to_string(
        &self,
        alloc: Global,
        uri: &URIView<'_>,
    ) -> Result<String, AllocError>
        ensures { IfOk result (λ s. string_bytes s ≡ print (relative self.now.parts uri.now.parts)) }
    {
        relativize_to_string(alloc, &self.view, &uri.view)
    }
}
