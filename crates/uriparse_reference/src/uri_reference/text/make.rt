//! Normal forms, targets, the references that lead to them and printed references, each in a text of
//! its own: RFC 3986, sections 5.2, 5.3 and 6.2.2.
ghost use Rattle.std.specs.Prelude.{◌≡◌, Err, IfOk, IfSome, IsOk, MatchOption, MatchResult, is_some, string_bytes, true, false};
ghost use Rattle.uriparse_reference.specs.Normal.{normal};
ghost use Rattle.uriparse_reference.specs.OwnedText.{AreOffsets, IsReference, viewed_in};
ghost use Rattle.uriparse_reference.specs.Reference.{ReadsBack, Spells, print};
ghost use Rattle.uriparse_reference.specs.Relate.{relative};
ghost use Rattle.uriparse_reference.specs.Target.{ResolvesTo};
ghost use Rattle.uriparse_reference.specs.View.{printed};
ghost use Rattle.uriparse_reference.specs.declared.uri_reference.error.TargetError.TheVariants as targets;

use super::super::URIReference;
use super::super::error::TargetError;
use super::super::view::ReferenceView;
use super::super::view::offsets::Offsets;
use super::super::view::relativize::relativize_to_string;
use super::{ReferenceText, find_offsets};
use std::alloc::{AllocError, Global};

/// Where the components lie of a text that is known to be a reference. The text is walked once.
pub(super) fn known_offsets(text: &[u8]) -> Option<Offsets>
    requires { IsReference text.now }
    ensures { IfSome result (λ c. AreOffsets text.now c) }
{
    match find_offsets(text) {
        Ok(offsets) => offsets,
        Err(_) => None,
    }
}

/// The reference of this text, which is known to be one. The text is walked once, to find where its
/// components lie.
pub(super) fn checked_text(text: String) -> ReferenceText
    requires { IsReference (string_bytes text) }
    ensures { result ≡ viewed_in (string_bytes text) }
{
    let offsets = known_offsets(text.as_bytes());
    ReferenceText { text, offsets }
}

impl ReferenceText {
    /// The normal form's string, or `None` if it equals this string.
    fn other_normal_text(&self, alloc: Global) -> Result<Option<String>, AllocError>
        ensures other { IfOk result (λ o. MatchOption o (print (normal self.now.parts) ≡ self.now.text) (λ s. string_bytes s ≡ print (normal self.now.parts))) }
        ensures takes_no_memory { print (normal self.now.parts) ≡ self.now.text → IsOk result }
        ensures normal { IsReference (print (normal self.now.parts)) }
        ensures spelled { Spells self.now.text self.now.parts }
    {
        let view = self.as_view();
        if view.is_normalized_text() {
            return Ok(None);
        }
        Ok(Some(view.normalize_to_string(alloc)?))
    }

    /// Replaces the text by the normal form's: RFC 3986, section 6.2.2. Allocates once, exactly
    /// its length, and not at all if the text is that already. If memory runs out, the text is
    /// unchanged.
    ///
    /// A host that is a name may read as an IPv4 address then: `//%31.2.3.4` becomes `//1.2.3.4`.
    ///
    /// ```
    /// let mut text = ReferenceText::try_from_str(alloc, "HTTP://Example.com/a/../%7e")?;
    /// text.normalize(alloc)?;
    /// assert!(text.as_str() == "http://example.com/~" && text.as_view().path() == "/~");
    /// ```
    pub fn normalize(&mut self, alloc: Global) -> Result<(), AllocError>
        ensures text { MatchResult result (λ _. self.new.text ≡ print (normal self.old.parts)) (λ _. self.new ≡ self.old) }
        ensures parts { IfOk result (λ _. ReadsBack (normal self.old.parts) → self.new.parts ≡ normal self.old.parts) }
        ensures takes_no_memory { print (normal self.old.parts) ≡ self.old.text → IsOk result }
    {
        if let Some(text) = self.other_normal_text(alloc)? {
            *self = checked_text(text);
        }
        Ok(())
    }
}

impl<'t> ReferenceView<'t> {
    /// Resolves a reference against this base, and returns the target in a text of its own, as
    /// [`resolve_to_string`](ReferenceView::resolve_to_string) returns its text: same errors, in the
    /// same order. Allocates once, exactly its length. RFC 3986, section 5.2.
    ///
    /// ```
    /// let base = ReferenceText::try_from_str(alloc, "http://a/b/c/d;p?q")?;
    /// let reference = ReferenceView::try_from_str("../g?y")?;
    /// let target = base.as_view().resolve_to_text(alloc, &reference)?;
    /// assert!(target.as_str() == "http://a/b/g?y" && target.as_view().has_query());
    /// ```
    pub fn resolve_to_text(
        &self,
        alloc: Global,
        reference: &ReferenceView<'_>,
    ) -> Result<ReferenceText, TargetError>
        // A base without a scheme is rejected.
        ensures base { is_some self.now.parts.scheme ≡ false → result ≡ Err targets.RelativeBase }

        // Else the result is the target, if there is one, in its printed text, unless memory runs out.
        ensures target { is_some self.now.parts.scheme ≡ true → ResolvesTo (λ t v. v ≡ printed t) self.now.parts reference.now.parts result }
    {
        let (_base, _reference) = (self.as_str(), reference.as_str());
        match self.resolve_to_string(alloc, reference) {
            Ok(text) => Ok(checked_text(text)),
            Err(error) => Err(error),
        }
    }
}

/// The reference that leads from a base to a target, in a text of its own. Allocates once, exactly
/// its length.
pub fn relativize_to_text(
    alloc: Global,
    base: &ReferenceView<'_>,
    target: &ReferenceView<'_>,
) -> Result<ReferenceText, AllocError>
    ensures { IfOk result (λ v. v ≡ printed (relative base.now.parts target.now.parts)) }
{
    let (_base, _target) = (base.as_str(), target.as_str());
    match relativize_to_string(alloc, base, target) {
        Ok(text) => Ok(checked_text(text)),
        Err(error) => Err(error),
    }
}

impl<'r> URIReference<'r> {
    /// What the reference prints, as a text that is owned. Allocates.
    ///
    /// It reads back as an equal reference, unless the host is a name that spells an IPv4 address.
    pub fn to_text(&self, alloc: Global) -> Result<ReferenceText, AllocError>
        ensures text { IfOk result (λ v. v.text ≡ print self.now) }
        ensures parts { ReadsBack self.now → IfOk result (λ v. v.parts ≡ self.now) }
    {
        let _path = self.path();
        Ok(checked_text(self.to_string(alloc)?))
    }
}
