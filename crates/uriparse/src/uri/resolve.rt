//! The target of a reference against a base: RFC 3986, section 5.2.
ghost use Rattle.std.specs.Prelude.{◌≡◌, Err, IfOk, IsOk, MatchOption, Ok, Some, length, true};
ghost use Rattle.uriparse_text.specs.Readings.{IsUnless};
ghost use Rattle.uriparse_text.specs.declared.segment.error.PathError.TheVariants as paths;
ghost use Rattle.uriparse_reference.specs.Normal.{normal};
ghost use Rattle.uriparse_reference.specs.Reference.{Parts, Same, Valid};
ghost use Rattle.uriparse_reference.specs.Target.{AreSame, MergesAlike, NormalizesAlike, is_merged, target};
ghost use Rattle.uriparse.specs.declared.uri.error.URIError.TheVariants as errors;

use super::{URI, URIError, WithScheme};
use crate::kind::ReferenceKind;
use crate::reference_of::ReferenceOf;
use std::alloc::Global;
use uriparse_reference::internal::resolve;
use uriparse_reference::uri_reference::URIReference;

impl<'u> URI<'u> {
    /// Resolves the reference against this URI: RFC 3986, section 5.2.2, strict. The target borrows
    /// the texts of both. Dot segments are removed where that section says so; nothing else is
    /// normalized. Without an authority, a path that would begin with `//` gets a leading `/.`. The
    /// fragment is the reference's.
    ///
    /// Fails with [`Path`](URIError::Path) of
    /// [`ExceededMaximumLength`](uriparse_path::path::PathError::ExceededMaximumLength) if the
    /// merged path, that is the base's without its last segment and then the reference's, has more
    /// segments than a path may have, even if memory has run out. Else allocates the list of
    /// segments once, and not if both paths have one segment; if memory runs out, the error is
    /// [`Path`](URIError::Path) of [`OutOfMemory`](uriparse_path::path::PathError::OutOfMemory).
    ///
    /// ```
    /// let base = URI::try_from_str(alloc, "http://a/b/c/d;p?q")?;
    /// let reference = URIReference::try_from_str(alloc, "../g#s")?;
    /// assert_eq!(base.resolve(alloc, &reference)?.to_string(alloc)?.as_str(), "http://a/b/g#s");
    /// ```
    pub fn resolve<'a>(
        &'a self,
        alloc: Global,
        reference: &'a URIReference<'_>,
    ) -> Result<URI<'a>, URIError>
        // Section 5.2.2's target.
        ensures answer { MatchOption (target self.now reference.now) (result ≡ Err (errors.Path paths.ExceededMaximumLength)) (λ t. IsUnless (errors.Path paths.OutOfMemory) result (Ok t)) }

        ensures found { IfOk result (λ t. target self.now reference.now ≡ Some t) }

        ensures takes_no_memory { length self.now.path.segments ≡ 1 → length reference.now.path.segments ≡ 1 → IsOk result }

        // Equal references have equal targets against equal bases, or both have none.
        ensures equal { (c q : Parts) → Valid c → Valid q → Same self.now c → Same reference.now q → AreSame (target self.now reference.now) (target c q) }

        // The normal forms of both have a target with the same normal form, unless paths are merged
        // that do not merge alike.
        ensures commutes { IfOk result (λ t. (is_merged reference.now ≡ true → MergesAlike self.now reference.now) → NormalizesAlike self.now reference.now t) }
    {
        match resolve(alloc, &self.reference, reference) {
            Ok(target) => Ok(ReferenceOf::of_checked(target)),
            Err(error) => Err(WithScheme::map_error(error)),
        }
    }
}
