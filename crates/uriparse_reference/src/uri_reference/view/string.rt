//! The normal form of a reference and the target of another against it, each as a `String`: RFC
//! 3986, sections 5.2 and 6.2.2.
ghost use Rattle.std.specs.Prelude.{◌≡◌, Err, IfOk, false, is_some, string_bytes, true};
ghost use Rattle.uriparse_reference.specs.declared.uri_reference.error.TargetError.TheVariants as errors;
ghost use Rattle.uriparse_reference.specs.Reference.{print};
ghost use Rattle.uriparse_reference.specs.Normal.{normal};
ghost use Rattle.uriparse_reference.specs.Target.{ResolvesTo};

use super::super::error::TargetError;
use super::ReferenceView;
use super::put::make_string;
use super::target::TargetText;
use super::write::NormalText;
use std::alloc::{AllocError, Global};

impl<'t> ReferenceView<'t> {
    /// The text of the normal form, as [`normalize_into`](ReferenceView::normalize_into) writes it.
    /// Allocates once, exactly its length; fails only if memory runs out. RFC 3986, section 6.2.2.
    ///
    /// ```
    /// let view = ReferenceView::try_from_str("HTTP://Example.com/a/./b/../%7e")?;
    /// assert_eq!(view.normalize_to_string(alloc)?.as_str(), "http://example.com/a/~");
    /// ```
    pub fn normalize_to_string(&self, alloc: Global) -> Result<String, AllocError>
        ensures { IfOk result (λ s. string_bytes s ≡ print (normal self.now.parts)) }
    {
        if self.is_normalized_text() {
            return String::from_str(alloc, self.as_str());
        }
        make_string(alloc, &NormalText(self))
    }

    /// Resolves a reference against this base, and returns the text of the target, as
    /// [`resolve_into`](ReferenceView::resolve_into) writes it. Allocates once, exactly its length.
    /// RFC 3986, section 5.2.
    ///
    /// The error is [`RelativeBase`](TargetError::RelativeBase) if this base has no scheme, else
    /// [`TooManySegments`](TargetError::TooManySegments) if the merged paths have more segments
    /// than a path may have, both even if memory has run out; else
    /// [`OutOfMemory`](TargetError::OutOfMemory) if memory runs out.
    ///
    /// ```
    /// let base = ReferenceView::try_from_str("http://a/b/c/d;p?q")?;
    /// let reference = ReferenceView::try_from_str("../g?y")?;
    /// assert_eq!(base.resolve_to_string(alloc, &reference)?.as_str(), "http://a/b/g?y");
    /// ```
    pub fn resolve_to_string(
        &self,
        alloc: Global,
        reference: &ReferenceView<'_>,
    ) -> Result<String, TargetError>
        // A base without a scheme is rejected.
        ensures base { is_some self.now.parts.scheme ≡ false → result ≡ Err errors.RelativeBase }

        // Else the result is the target's text, if there is a target, unless memory runs out.
        ensures target { is_some self.now.parts.scheme ≡ true → ResolvesTo (λ t s. string_bytes s ≡ print t) self.now.parts reference.now.parts result }
    {
        if !self.has_scheme() {
            return Err(TargetError::RelativeBase);
        }
        if self.lacks_target(reference) {
            return Err(TargetError::TooManySegments);
        }
        let target = TargetText {
            base: self,
            reference,
        };
        match make_string(alloc, &target) {
            Ok(text) => Ok(text),
            Err(AllocError) => Err(TargetError::OutOfMemory),
        }
    }
}
