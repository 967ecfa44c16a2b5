//! A reference of one kind: what URIs and relative references share.
ghost use Rattle.std.specs.Prelude.{◌≡◌, ◌↔◌, ◌⊎◌, ◌<◌, if◌then◌else◌, false, [], IfOk, IfErr, IfSome, IsOk, IsTrue, Ok, Err, Some, bytes_eq, fold, is_some, length, string_bytes};
ghost use Rattle.std.specs.Bool.{beq};
ghost use Rattle.std.specs.Option.{option_map};
ghost use Rattle.std.proofs.Common.{rules};
ghost use Rattle.std.specs.Ordering.{on};
ghost use Rattle.std.specs.Cmp.Rules.{comparing, hashing};
ghost use Rattle.uriparse_text.specs.Readings.{IsUnless, unless_fault};
ghost use Rattle.uriparse_text.specs.declared.segment.error.PathError.TheVariants.{OutOfMemory};
ghost use Rattle.uriparse_reference.specs.declared.uri_reference.error.URIReferenceError.TheVariants as errors;
ghost use Rattle.uriparse_reference.specs.Key.{fed, fed_key, key};
ghost use Rattle.uriparse_reference.specs.Reference.{Same, print};
ghost use Rattle.uriparse.specs.Kinds.{IsOfKind, fault_of, first_fault_of, of_kind, reading_of, with_mapped_error};

use crate::builder_of::BuilderOf;
use crate::kind::ReferenceKind;
use std::alloc::{AllocError, Global};
use std::fmt;
use std::hash::{Hash, Hasher};
use std::marker::{Model, PhantomData};
use uriparse_path::path::PathError;
use uriparse_reference::internal::find_pieces;
use uriparse_reference::uri_reference::{ReferenceView, URIReference, URIReferenceError};

mod access;
mod beside;
mod edit;
mod normal;
mod pairs;

/// A reference with a scheme or one without, by its kind. Users name it [`URI`](crate::uri::URI) or
/// [`RelativeReference`](crate::relative_reference::RelativeReference). Contracts see it as the
/// five components of a reference.
///
/// Each of its calls does what the call of the same name does for the [`URIReference`] that it
/// holds, with errors mapped to the kind's. Two of them are equal if their references are.
#[derive(Drop)]
pub struct ReferenceOf<'r, K: ReferenceKind> {
    pub(crate) reference: URIReference<'r>,
    kind: PhantomData<K>,
}

impl<'r, K: ReferenceKind> Model for ReferenceOf<'r, K> {
    ghost use Rattle.uriparse_reference.specs.Reference.{Parts};
    ghost use Rattle.uriparse.specs.Kinds.{IsOfKind};

    ghost Value = { Parts };

    ghost view = { λ u. u.reference };

    ghost invariant = { λ u. IsOfKind K.has_scheme u.reference };
}

impl<'r, K: ReferenceKind> ReferenceOf<'r, K> {
    ghost use Rattle.uriparse_reference.specs.Builder.{held, nothing};
    ghost use Rattle.uriparse_reference.specs.Reference.{Parts, ReadsBack, Spells, Valid};

    /// Wraps a reference that is known to be of this kind.
    pub(crate) fn of_checked(reference: URIReference<'r>) -> ReferenceOf<'r, K>
        requires { IsOfKind K.has_scheme reference }
        ensures { result ≡ reference.entry }
    {
        ReferenceOf {
            reference,
            kind: PhantomData,
        }
    }

    /// Wraps a reference that is known to be of this kind, or maps the error to the kind's.
    pub(crate) fn map_error_of_checked(
        answer: Result<URIReference<'r>, URIReferenceError>,
    ) -> Result<ReferenceOf<'r, K>, K::Error>
        requires { IfOk answer (λ r. IsOfKind K.has_scheme r) }
        ensures { result ≡ with_mapped_error K.map_error answer.entry }
    {
        match answer {
            Ok(reference) => Ok(ReferenceOf::of_checked(reference)),
            Err(error) => Err(K::map_error(error)),
        }
    }

    /// Reads a reference of this kind, whose components borrow the bytes. Allocates only the list
    /// of segments, if there is more than one.
    ///
    /// A faulty text fails as in [`URIReference::try_from_bytes`], with the error mapped to the
    /// kind's. For a URI, the error of the colon rule is mapped to
    /// [`NotURI`](crate::uri::URIError::NotURI). A faultless text of the other kind is rejected
    /// with [`NotURI`](crate::uri::URIError::NotURI) or
    /// [`NotRelativeReference`](crate::relative_reference::RelativeReferenceError::NotRelativeReference).
    /// Both are returned even if memory has run out. If there is no such error but memory runs out,
    /// the error is the kind's `Path` of
    /// [`OutOfMemory`](uriparse_path::path::PathError::OutOfMemory).
    pub fn try_from_bytes(alloc: Global, bytes: &'r [u8]) -> Result<ReferenceOf<'r, K>, K::Error>
        // The text spells the result, which is of the kind.
        ensures found { IfOk result (λ u. Spells bytes.now u) }
        ensures kind { IfOk result (λ u. IsOfKind K.has_scheme u) }

        // A text that spells a reference of the kind is accepted, unless memory runs out.
        ensures only { (p : Parts) → Spells bytes.now p → IsOfKind K.has_scheme p → IsUnless (K.map_error (errors.Path OutOfMemory)) result (Ok p) }

        // An error is the text's fault, or that it is of the other kind, or out of memory.
        ensures fault { IfErr result (λ e. (fault_of K.has_scheme K.map_error K.other bytes.now ≡ Some e) ⊎ (e ≡ K.map_error (errors.Path OutOfMemory))) }

        // A fault, or that it is of the other kind, is returned even if memory has run out.
        ensures always { (e : K.Error) → fault_of K.has_scheme K.map_error K.other bytes.now ≡ Some e → result ≡ Err e }

        // A path of one segment takes no memory.
        ensures takes_no_memory { (p : Parts) → Spells bytes.now p → IsOfKind K.has_scheme p → length p.path.segments ≡ 1 → result ≡ Ok p }
    {
        Self::read(alloc, bytes)
    }

    /// Like [`try_from_bytes`](ReferenceOf::try_from_bytes), for a `str`.
    pub fn try_from_str(alloc: Global, text: &'r str) -> Result<ReferenceOf<'r, K>, K::Error>
        ensures found { IfOk result (λ u. Spells text.now u) }
        ensures kind { IfOk result (λ u. IsOfKind K.has_scheme u) }
        ensures only { (p : Parts) → Spells text.now p → IsOfKind K.has_scheme p → IsUnless (K.map_error (errors.Path OutOfMemory)) result (Ok p) }
        ensures fault { IfErr result (λ e. (fault_of K.has_scheme K.map_error K.other text.now ≡ Some e) ⊎ (e ≡ K.map_error (errors.Path OutOfMemory))) }
        ensures always { (e : K.Error) → fault_of K.has_scheme K.map_error K.other text.now ≡ Some e → result ≡ Err e }
        ensures takes_no_memory { (p : Parts) → Spells text.now p → IsOfKind K.has_scheme p → length p.path.segments ≡ 1 → result ≡ Ok p }
    {
        Self::read(alloc, text.as_bytes())
    }

    /// Checks whether [`try_from_bytes`](ReferenceOf::try_from_bytes) accepts a text: returns the
    /// text's fault, mapped to the kind's error, or the error for a text of the other kind. Does
    /// not allocate, so it never runs out of memory.
    pub fn check(bytes: &[u8]) -> Result<(), K::Error>
        ensures { result ≡ unless_fault (fault_of K.has_scheme K.map_error K.other bytes.now) tt }
    {
        match find_pieces(bytes) {
            Ok(pieces) => Self::check_kind(pieces.has_scheme()),
            Err(error) => Err(K::map_error(error)),
        }
    }

    /// Where a text is wrong, and why: what
    /// [`URIReference::first_fault`] returns, with the error mapped to the kind's. A faultless text
    /// of the other kind is wrong at its beginning, where a missing scheme would stand, or a scheme
    /// stands that may not be there. `None` if [`check`](ReferenceOf::check) accepts the text, else
    /// its error, with a place before the end of the text, or 0 if the text is empty. Does not
    /// allocate.
    pub fn first_fault(bytes: &[u8]) -> Option<(usize, K::Error)>
        ensures fault { result ≡ first_fault_of K.has_scheme K.map_error K.other bytes.now }
        ensures error { option_map (λ f. f.1) result ≡ fault_of K.has_scheme K.map_error K.other bytes.now }
        ensures within { IfSome result (λ f. (f.0 < length bytes.now) ⊎ (bytes.now ≡ [])) }
    {
        match URIReference::first_fault(bytes) {
            Some((offset, error)) => Some((offset, K::map_error(error))),
            None => Self::other_fault(bytes),
        }
    }

    /// What [`check`](ReferenceOf::check) says of a text, at its beginning.
    fn other_fault(bytes: &[u8]) -> Option<(usize, K::Error)>
        ensures { result ≡ option_map (λ e. (0, e)) (fault_of K.has_scheme K.map_error K.other bytes.now) }
    {
        match Self::check(bytes) {
            Ok(()) => None,
            Err(error) => Some((0, error)),
        }
    }

    /// Rejects a reference of the other kind.
    fn check_kind(has_scheme: bool) -> Result<(), K::Error>
        ensures { result ≡ (if beq has_scheme K.has_scheme then Ok tt else Err K.other) }
    {
        if has_scheme == K::has_scheme() {
            Ok(())
        } else {
            Err(K::other())
        }
    }

    /// Finds the components of a text, checks the kind, and builds the value.
    fn read(alloc: Global, bytes: &'r [u8]) -> Result<ReferenceOf<'r, K>, K::Error>
        ensures answer { IsUnless (K.map_error (errors.Path OutOfMemory)) result (reading_of K.has_scheme K.map_error K.other bytes.now) }
        ensures always { (e : K.Error) → fault_of K.has_scheme K.map_error K.other bytes.now ≡ Some e → result ≡ Err e }
        ensures takes_no_memory { (p : Parts) → Spells bytes.now p → IsOfKind K.has_scheme p → length p.path.segments ≡ 1 → result ≡ Ok p }
    {
        match ReferenceView::try_from_bytes(bytes) {
            Ok(view) => ReferenceOf::of_view(alloc, &view),
            Err(error) => Err(K::map_error(error)),
        }
    }

    /// The reference that a view found, if it is of this kind.
    fn of_view(alloc: Global, view: &ReferenceView<'r>) -> Result<ReferenceOf<'r, K>, K::Error>
        ensures answer { IsUnless (K.map_error (errors.Path OutOfMemory)) result (of_kind K.has_scheme K.other view.now.parts) }
        ensures other { beq (is_some view.now.parts.scheme) K.has_scheme ≡ false → result ≡ Err K.other }
        ensures takes_no_memory { length view.now.parts.path.segments ≡ 1 → result ≡ of_kind K.has_scheme K.other view.now.parts }
    {
        if view.has_scheme() != K::has_scheme() {
            return Err(K::other());
        }
        match view.to_reference(alloc) {
            Ok(reference) => Ok(ReferenceOf::of_checked(reference)),
            Err(AllocError) => Err(K::map_error(URIReferenceError::Path(PathError::OutOfMemory))),
        }
    }

    /// Whether the reference is of this kind.
    fn is_own(reference: &URIReference<'r>) -> bool
        ensures { result ≡ beq (is_some reference.now.scheme) K.has_scheme }
    {
        reference.has_scheme() == K::has_scheme()
    }

    /// The reference, if it is of this kind.
    fn of(reference: URIReference<'r>) -> Result<ReferenceOf<'r, K>, K::Error>
        ensures { result ≡ of_kind K.has_scheme K.other reference.entry }
    {
        if Self::is_own(&reference) {
            Ok(ReferenceOf::of_checked(reference))
        } else {
            Err(K::other())
        }
    }

    /// This value as a [`URIReference`]. Does not allocate.
    pub fn as_uri_reference(&self) -> &URIReference<'r>
        ensures value { result.now ≡ self.now }
        ensures kind { IsOfKind K.has_scheme self.now }
    {
        &self.reference
    }

    /// A builder with no component. Does not allocate.
    pub fn builder() -> BuilderOf<'r, K>
        ensures { result ≡ nothing }
    {
        BuilderOf::new()
    }

    /// A builder with the components of this value, which builds it again. Does not allocate.
    pub fn into_builder(self) -> BuilderOf<'r, K>
        ensures parts { result ≡ held self.entry }
        ensures valid { Valid self.entry }
        ensures kind { IsOfKind K.has_scheme self.entry }
    {
        BuilderOf::of_checked(self.reference.into_builder())
    }

    /// A copy that borrows this value's texts. Allocates the list of segments, if there is more
    /// than one.
    pub fn to_borrowed(&self, alloc: Global) -> Result<ReferenceOf<'_, K>, AllocError>
        ensures copy { IfOk result (λ u. u ≡ self.now) }

        // A path of one segment takes no memory.
        ensures takes_no_memory { length self.now.path.segments ≡ 1 → IsOk result }
    {
        Ok(ReferenceOf {
            reference: self.reference.to_borrowed(alloc)?,
            kind: PhantomData,
        })
    }

    /// The value, owned. Allocates each borrowed text, and the list of segments if there is
    /// more than one; if memory runs out, the value is dropped.
    pub fn into_owned(self, alloc: Global) -> Result<ReferenceOf<'static, K>, AllocError>
        ensures { IfOk result (λ u. u ≡ self.entry) }
    {
        Ok(ReferenceOf {
            reference: self.reference.into_owned(alloc)?,
            kind: PhantomData,
        })
    }

    /// A copy that owns its texts, in one call. Allocates a copy of each text and, for several
    /// segments, two lists of them, one of which is freed again.
    pub fn to_owned(&self, alloc: Global) -> Result<ReferenceOf<'static, K>, AllocError>
        ensures { IfOk result (λ u. u ≡ self.now) }
    {
        self.to_borrowed(alloc)?.into_owned(alloc)
    }

    /// A copy of the string. Allocates.
    pub fn to_string(&self, alloc: Global) -> Result<String, AllocError>
        ensures printed { IfOk result (λ s. string_bytes s ≡ print self.now) }

        // The string spells the value, unless its host is a name that reads as an address.
        ensures back { IfOk result (λ s. ReadsBack self.now → Spells (string_bytes s) self.now) }
    {
        self.reference.to_string(alloc)
    }
}

impl<'r, K: ReferenceKind> From<ReferenceOf<'r, K>> for URIReference<'r> {
    ghost from_gives = { λ u r. r ≡ u };

    fn from(value: ReferenceOf<'r, K>) -> URIReference<'r> {
        value.reference
    }
}

/// A reference of the other kind is rejected, and dropped.
impl<'r, K: ReferenceKind> TryFrom<URIReference<'r>> for ReferenceOf<'r, K> {
    type Error = K::Error;

    ghost try_from_gives = { λ r answer. answer ≡ of_kind K.has_scheme K.other r };

    fn try_from(reference: URIReference<'r>) -> Result<ReferenceOf<'r, K>, K::Error> {
        ReferenceOf::of(reference)
    }
}

impl<'r, K: ReferenceKind> PartialEq for ReferenceOf<'r, K> {
    ghost eq = { on key bytes_eq };

    ghost laws = { Prim.search (comparing, rules) };

    fn eq(&self, other: &ReferenceOf<'r, K>) -> bool
        ensures key { result ≡ bytes_eq (key self.now) (key other.now) }
        ensures same { IsTrue result ↔ Same self.now other.now }
    {
        self.reference == other.reference
    }
}

impl<'r, K: ReferenceKind> Eq for ReferenceOf<'r, K> {
    ghost laws = { Prim.search (comparing, rules) };
}

impl<'r, K: ReferenceKind> Hash for ReferenceOf<'r, K> {
    ghost hash_input = { λ u. fed_key (key u) };

    ghost respects_eq = { Prim.search (hashing, rules) };

    fn hash<H: Hasher>(&self, state: &mut H)
        ensures fed { state.new ≡ fold H.write state.old (fed self.now) }
        ensures key { state.new ≡ fold H.write state.old (fed_key (key self.now)) }
    {
        self.reference.hash(state);
    }
}

impl<'r, K: ReferenceKind> fmt::Display for ReferenceOf<'r, K> {
    ghost output = { λ u. Some (print u) };

    // The formatter's options have no effect.
    ghost styled_output = { λ u _. Some (print u) };

    fn fmt<W: fmt::Write>(&self, f: &mut fmt::Formatter<W>) -> fmt::Result {
        fmt::Display::fmt(&self.reference, f)
    }
}

impl<'r, K: ReferenceKind> fmt::Debug for ReferenceOf<'r, K> {
    fn fmt<W: fmt::Write>(&self, f: &mut fmt::Formatter<W>) -> fmt::Result {
        f.debug_tuple(K::name()).field(&self.reference).finish()
    }
}
