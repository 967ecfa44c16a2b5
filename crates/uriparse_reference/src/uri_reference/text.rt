//! A URI reference in a text that it owns: RFC 3986, section 4.1.
ghost use Rattle.std.specs.Prelude.{◌≡◌, ◌⊎◌, Err, IfErr, IfOk, IfSome, IsOk, MatchResult, Ok, Some, bytes_eq, fold, length, refl, string_bytes};
ghost use Rattle.std.proofs.Common.{rules};
ghost use Rattle.std.specs.Ordering.{as_partial_cmp, on};
ghost use Rattle.std.specs.Cmp.Rules.{comparing, hashing};
ghost use Rattle.uriparse_text.specs.Readings.{IsUnless};
ghost use Rattle.uriparse_text.specs.declared.segment.error.PathError.TheVariants.{OutOfMemory};
ghost use Rattle.uriparse_reference.specs.Key.{fed, fed_key, key};
ghost use Rattle.uriparse_reference.specs.OwnedText.{AreOffsets, IsReference, viewed_in};
ghost use Rattle.uriparse_reference.specs.Order.{ordered_po, ordered_ties, ordered_total, reference_cmp, reference_key_cmp};
ghost use Rattle.uriparse_reference.specs.Reading.{fault, reading};
ghost use Rattle.uriparse_reference.specs.View.{view_key, viewed};
ghost use Rattle.uriparse_reference.specs.declared.uri_reference.error.URIReferenceError.TheVariants as errors;

use super::URIReference;
use super::error::{RejectedText, URIReferenceError};
use super::view::ReferenceView;
use super::view::offsets::Offsets;
use std::alloc::{AllocError, Global};
use std::cmp::Ordering;
use std::fmt;
use std::hash::{Hash, Hasher};
use std::marker::Model;
use uriparse_path::path::PathError;

mod change;
mod edit;
mod key;
pub(crate) mod make;
mod pairs;

pub use key::ReferenceKey;

/// A URI reference in a text that it owns: a URI or a relative reference, with numbers that say where
/// its components lie. RFC 3986, section 4.1.
///
/// It is what a store keeps: it borrows nothing, takes some sixty bytes beside its text, and lends a
/// [`ReferenceView`] at once ([`as_view`](ReferenceText::as_view)), whose calls return the
/// components, normalize and resolve. Contracts see it as a view is seen, as the text that was read
/// and its components. Two of them are equal, and hash alike, if their views do.
///
/// ```
/// let text = ReferenceText::try_from_str(alloc, "http://example.com/a?q")?;
/// assert!(text.as_view().path() == "/a" && text.as_str() == "http://example.com/a?q");
/// assert!(text == ReferenceText::try_from_str(alloc, "HTTP://EXAMPLE.com/%61?q")?);
/// ```
#[derive(Drop)]
pub struct ReferenceText {
    text: String,
    // `None` if the text has 4 GiB or more: it is read again then.
    offsets: Option<Offsets>,
}

impl Model for ReferenceText {
    ghost use Rattle.std.specs.Prelude.{IfSome, string_bytes};
    ghost use Rattle.uriparse_reference.specs.OwnedText.{AreOffsets, IsReference, viewed_in};
    ghost use Rattle.uriparse_reference.specs.View.{Viewed};

    ghost Value = { Viewed };

    ghost view = { λ v. viewed_in (string_bytes v.text) };

    ghost invariant = { λ v. IsReference (string_bytes v.text) × IfSome v.offsets (λ c. AreOffsets (string_bytes v.text) c) };
}

/// Where the components of a text lie, or its fault.
fn find_offsets(text: &[u8]) -> Result<Option<Offsets>, URIReferenceError>
    ensures { MatchResult result (λ o. IsReference text.now × IfSome o (λ c. AreOffsets text.now c)) (λ e. fault text.now ≡ Some e) }
{
    match ReferenceView::try_from_bytes(text) {
        Ok(view) => Ok(view.offsets()),
        Err(error) => Err(error),
    }
}

/// The view of the text of a reference, which is read again.
fn view_again(text: &[u8]) -> ReferenceView<'_>
    requires { IsReference text.now }
    ensures { result ≡ viewed_in text.now }
{
    ReferenceView::try_from_bytes(text).unwrap()
}

impl ReferenceText {
    ghost use Rattle.uriparse_reference.specs.Reference.{Parts, Spells};
    ghost use Rattle.uriparse_reference.specs.declared.uri_reference.error.URIReferenceError.{URIReferenceError};

    /// Reads a reference, and keeps a copy of the text: RFC 3986, section 4.1. Allocates once, exactly
    /// the text's length.
    ///
    /// Returns the fault that [`ReferenceView::try_from_bytes`] returns, even if memory has run out.
    /// If there is no fault but memory runs out, the error is [`Path`](URIReferenceError::Path) with
    /// [`OutOfMemory`](PathError::OutOfMemory).
    pub fn try_from_bytes(alloc: Global, bytes: &[u8]) -> Result<ReferenceText, URIReferenceError>
        // The result keeps the text, which spells its components.
        ensures text { IfOk result (λ v. v.text ≡ bytes.now) }
        ensures found { IfOk result (λ v. Spells bytes.now v.parts) }

        // A text that spells a reference is accepted, unless memory runs out.
        ensures only { (p : Parts) → Spells bytes.now p → IsUnless (errors.Path OutOfMemory) result (Ok (record { text = bytes.now; parts = p })) }

        // An error is the text's fault, or memory ran out.
        ensures fault { IfErr result (λ e. (fault bytes.now ≡ Some e) ⊎ (e ≡ errors.Path OutOfMemory)) }

        // A fault is returned even if memory has run out.
        ensures always { (e : URIReferenceError) → fault bytes.now ≡ Some e → result ≡ Err e }
    {
        let view = ReferenceView::try_from_bytes(bytes)?;
        Ok(view.to_text(alloc)?)
    }

    /// Like [`try_from_bytes`](ReferenceText::try_from_bytes), for a `str`.
    pub fn try_from_str(alloc: Global, text: &str) -> Result<ReferenceText, URIReferenceError>
        ensures text { IfOk result (λ v. v.text ≡ text.now) }
        ensures found { IfOk result (λ v. Spells text.now v.parts) }
        ensures only { (p : Parts) → Spells text.now p → IsUnless (errors.Path OutOfMemory) result (Ok (record { text = text.now; parts = p })) }
        ensures fault { IfErr result (λ e. (fault text.now ≡ Some e) ⊎ (e ≡ errors.Path OutOfMemory)) }
        ensures always { (e : URIReferenceError) → fault text.now ≡ Some e → result ≡ Err e }
    {
        ReferenceText::try_from_bytes(alloc, text.as_bytes())
    }

    /// Reads a reference from a text that it takes over: RFC 3986, section 4.1. Does not allocate.
    ///
    /// On a fault the text comes back with it: the fault that
    /// [`ReferenceView::try_from_bytes`](ReferenceView::try_from_bytes) returns.
    pub fn try_from_string(text: String) -> Result<ReferenceText, RejectedText<URIReferenceError>>
        // The result keeps the text, which spells its components.
        ensures text { IfOk result (λ v. v.text ≡ string_bytes text) }
        ensures found { IfOk result (λ v. Spells v.text v.parts) }

        // A text that spells a reference is accepted.
        ensures only { (p : Parts) → Spells (string_bytes text) p → IsOk result }

        // Any other comes back with its fault.
        ensures fault { MatchResult result (λ v. v ≡ viewed_in (string_bytes text)) (λ r. (r.text ≡ text) × (fault (string_bytes text) ≡ Some r.error)) }
    {
        match find_offsets(text.as_bytes()) {
            Ok(offsets) => Ok(ReferenceText { text, offsets }),
            Err(error) => Err(RejectedText { text, error }),
        }
    }

    /// The text, viewed as a reference: all that a view answers. Takes no memory and, if the text is
    /// shorter than 4 GiB, the same time for each text: only an authority with user information or an
    /// address is read again.
    #[inline]
    #[tactic(auto, using(crate::proofs::lemmas::reading::ReadingLemmas::found))]
    pub fn as_view(&self) -> ReferenceView<'_>
        ensures view { result ≡ self.now }
        ensures spelled { Spells self.now.text self.now.parts }
    {
        let text = self.text.as_bytes();
        match &self.offsets {
            Some(offsets) => offsets.view(text),
            None => view_again(text),
        }
    }

    /// The whole text, as it was read.
    #[tactic(auto, using(crate::proofs::lemmas::reading::ReadingLemmas::found))]
    pub fn as_str(&self) -> &str
        ensures text { result.now ≡ self.now.text }
        ensures spelled { Spells self.now.text self.now.parts }
    {
        self.text.as_str()
    }

    /// The text itself. Does not allocate.
    #[tactic(auto, using(crate::proofs::lemmas::reading::ReadingLemmas::found))]
    pub fn into_string(self) -> String
        ensures text { string_bytes result ≡ self.text }
        ensures spelled { Spells self.text self.parts }
    {
        let ReferenceText {
            text,
            offsets: _offsets,
        } = self;
        text
    }

    /// A copy. Allocates once, exactly the text's length.
    pub fn try_clone(&self, alloc: Global) -> Result<ReferenceText, AllocError>
        ensures { IfOk result (λ v. v ≡ self.now) }
    {
        Ok(ReferenceText {
            text: String::from_str(alloc, self.text.as_str())?,
            offsets: self.offsets,
        })
    }

    /// The reference, whose components borrow the text. Allocates only for the list of the path's
    /// segments, if there is more than one; no byte is checked again.
    pub fn to_reference(&self, alloc: Global) -> Result<URIReference<'_>, AllocError>
        ensures reference { IfOk result (λ r. r ≡ self.now.parts) }

        // A path of one segment takes no memory.
        ensures takes_no_memory { length self.now.parts.path.segments ≡ 1 → IsOk result }
    {
        self.as_view().to_reference(alloc)
    }
}

impl<'t> ReferenceView<'t> {
    /// The reference in a copy of its text, which it owns. Allocates once, exactly the text's length.
    pub fn to_text(&self, alloc: Global) -> Result<ReferenceText, AllocError>
        ensures { IfOk result (λ v. v ≡ self.now) }
    {
        Ok(ReferenceText {
            text: String::from_str(alloc, self.as_str())?,
            offsets: self.offsets(),
        })
    }
}

impl PartialEq for ReferenceText {
    ghost eq = { on view_key bytes_eq };

    ghost laws = { Prim.search (comparing, rules) };

    fn eq(&self, other: &ReferenceText) -> bool {
        self.as_view() == other.as_view()
    }
}

impl Eq for ReferenceText {
    ghost laws = { Prim.search (comparing, rules) };
}

impl Hash for ReferenceText {
    ghost hash_input = { λ v. fed_key (view_key v) };

    ghost respects_eq = { Prim.search (hashing, rules) };

    fn hash<H: Hasher>(&self, state: &mut H)
        ensures fed { state.new ≡ fold H.write state.old (fed self.now.parts) }
        ensures key { state.new ≡ fold H.write state.old (fed_key (key self.now.parts)) }
    {
        self.as_view().hash(state);
    }
}

impl fmt::Display for ReferenceText {
    ghost output = { λ v. Some v.text };

    // The formatter's options have no effect.
    ghost styled_output = { λ v _. Some v.text };

    fn fmt<W: fmt::Write>(&self, f: &mut fmt::Formatter<W>) -> fmt::Result {
        f.write_str(self.as_str())
    }
}

impl fmt::Debug for ReferenceText {
    fn fmt<W: fmt::Write>(&self, f: &mut fmt::Formatter<W>) -> fmt::Result {
        f.debug_tuple("ReferenceText")
            .field(&self.as_view())
            .finish()
    }
}

impl PartialOrd for ReferenceText {
    ghost partial_cmp = { as_partial_cmp (on view_key reference_key_cmp) };

    ghost laws = { ordered_po view_key };

    fn partial_cmp(&self, other: &ReferenceText) -> Option<Ordering> {
        Some(self.cmp(other))
    }
}

/// The order of the views.
impl Ord for ReferenceText {
    ghost cmp = { on view_key reference_key_cmp };

    ghost total = { ordered_total view_key };

    ghost matches_partial_cmp = { λ v w. refl };

    ghost matches_eq = { ordered_ties view_key };

    fn cmp(&self, other: &ReferenceText) -> Ordering
        ensures key { result ≡ reference_key_cmp (view_key self.now) (view_key other.now) }
        ensures parts { result ≡ reference_cmp self.now.parts other.now.parts }
    {
        self.as_view().cmp(&other.as_view())
    }
}
