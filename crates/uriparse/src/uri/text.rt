//! A URI in a text that it owns: RFC 3986, sections 3 and 5.2.
ghost use Rattle.std.specs.Prelude.{◌≡◌, IfOk};
ghost use Rattle.uriparse_reference.specs.Relate.{relative};
ghost use Rattle.uriparse_reference.specs.Target.{ResolvesTo};
ghost use Rattle.uriparse_reference.specs.View.{printed};

use super::WithScheme;
use super::view::URIView;
use crate::text_of::TextOf;
use std::alloc::{AllocError, Global};
use uriparse_reference::internal::relativize_to_text;
use uriparse_reference::uri_reference::{ReferenceText, ReferenceView, TargetError};

/// A URI in a text that it owns, with numbers that say where its components lie: a
/// [`ReferenceText`](crate::ReferenceText) with a scheme. The calls that it shares with texts of
/// relative references are at [`TextOf`].
///
/// ```
/// let uri = URIText::try_from_str(alloc, "http://example.com/schemas/a.json")?;
/// let reference = ReferenceView::try_from_str("b.json#x")?;
/// let target = uri.as_view().resolve_to_text(alloc, &reference)?;
/// assert_eq!(target.as_str(), "http://example.com/schemas/b.json#x");
/// ```
pub type URIText = TextOf<WithScheme>;

impl<'u> URIView<'u> {
    /// Resolves a reference against this URI, and returns the target in a text of its own. Allocates
    /// once, exactly its length.
    ///
    /// The error is [`TooManySegments`](TargetError::TooManySegments) if the merged paths have more
    /// segments than a path may have, even if memory has run out, else
    /// [`OutOfMemory`](TargetError::OutOfMemory) if memory runs out.
    pub fn resolve_to_text(
        &self,
        alloc: Global,
        reference: &ReferenceView<'_>,
    ) -> Result<URIText, TargetError>
        ensures { ResolvesTo (λ t v. v ≡ printed t) self.now.parts reference.now.parts result }
    {
        match self.as_reference_view().resolve_to_text(alloc, reference) {
            Ok(text) => Ok(TextOf::of_checked(text)),
            Err(error) => Err(error),
        }
    }

    /// The reference that leads from this URI to `uri`, in a text of its own: the one that
    /// [`URI::relativize`](crate::URI::relativize) makes. Allocates once, exactly its length; fails
    /// only if memory runs out.
    pub fn relativize_to_text(
        &self,
        alloc: Global,
        uri: &URIView<'_>,
    ) -> Result<ReferenceText, AllocError>
        ensures { IfOk result (λ v. v ≡ printed (relative self.now.parts uri.now.parts)) }
    {
        relativize_to_text(alloc, self.as_reference_view(), uri.as_reference_view())
    }
}
