//! A reference of one kind in a text that it owns: what texts of URIs and of relative references
//! share.
ghost use Rattle.std.specs.Prelude.{◌≡◌, ◌⊎◌, Err, IfErr, IfOk, IsOk, MatchResult, Ok, Some, bytes_eq, fold, string_bytes};
ghost use Rattle.std.proofs.Common.{rules};
ghost use Rattle.std.specs.Ordering.{on};
ghost use Rattle.std.specs.Cmp.Rules.{comparing, hashing};
ghost use Rattle.uriparse_text.specs.Readings.{IsUnless};
ghost use Rattle.uriparse_text.specs.declared.segment.error.PathError.TheVariants.{OutOfMemory};
ghost use Rattle.uriparse_reference.specs.declared.uri_reference.error.URIReferenceError.TheVariants as errors;
ghost use Rattle.uriparse_reference.specs.Key.{fed, fed_key, key};
ghost use Rattle.uriparse_reference.specs.View.{view_key};
ghost use Rattle.uriparse.specs.Kinds.{IsOfKind, fault_of};

use crate::kind::ReferenceKind;
use crate::view_of::ViewOf;
use std::alloc::{AllocError, Global};
use std::fmt;
use std::hash::{Hash, Hasher};
use std::marker::{Model, PhantomData};
use uriparse_path::path::PathError;
use uriparse_reference::uri_reference::{ReferenceText, RejectedText, URIReferenceError};

mod edit;
mod pairs;

/// A reference with a scheme or one without, by its kind, in a text that it owns. Users name it
/// [`URIText`](crate::uri::URIText) or
/// [`RelativeReferenceText`](crate::relative_reference::RelativeReferenceText). Contracts see it as
/// the text that was read and its components.
///
/// It has the components of the view that it lends ([`as_view`](TextOf::as_view)). Two of them are
/// equal if their views are.
#[derive(Drop)]
pub struct TextOf<K: ReferenceKind> {
    pub(crate) text: ReferenceText,
    kind: PhantomData<K>,
}

impl<K: ReferenceKind> Model for TextOf<K> {
    ghost use Rattle.uriparse_reference.specs.View.{Viewed};
    ghost use Rattle.uriparse.specs.Kinds.{IsOfKind};

    ghost Value = { Viewed };

    ghost view = { λ v. v.text };

    ghost invariant = { λ v. IsOfKind K.has_scheme v.text.parts };
}

impl<K: ReferenceKind> TextOf<K> {
    ghost use Rattle.uriparse_reference.specs.Reference.{Parts, Spells};

    /// Wraps a text that is known to be of this kind.
    pub(crate) fn of_checked(text: ReferenceText) -> TextOf<K>
        requires { IsOfKind K.has_scheme text.parts }
        ensures { result ≡ text }
    {
        TextOf {
            text,
            kind: PhantomData,
        }
    }

    /// Reads a reference of this kind, and keeps a copy of the text. Allocates once, exactly the
    /// text's length.
    ///
    /// Fails as [`ViewOf::try_from_bytes`] does, even if memory has run out. If there is no such error
    /// but memory runs out, the error is the kind's `Path` of
    /// [`OutOfMemory`](uriparse_path::path::PathError::OutOfMemory).
    #[tactic(auto, using(crate::proofs::lemmas::KindLemmas::faultless))]
    pub fn try_from_bytes(alloc: Global, bytes: &[u8]) -> Result<TextOf<K>, K::Error>
        // The result keeps the text, which spells its components, and is of the kind.
        ensures text { IfOk result (λ v. v.text ≡ bytes.now) }
        ensures found { IfOk result (λ v. Spells bytes.now v.parts) }
        ensures kind { IfOk result (λ v. IsOfKind K.has_scheme v.parts) }

        // A text that spells a reference of the kind is accepted, unless memory runs out.
        ensures only { (p : Parts) → Spells bytes.now p → IsOfKind K.has_scheme p → IsUnless (K.map_error (errors.Path OutOfMemory)) result (Ok (record { text = bytes.now; parts = p })) }

        // An error is the text's fault, or that it is of the other kind, or out of memory.
        ensures fault { IfErr result (λ e. (fault_of K.has_scheme K.map_error K.other bytes.now ≡ Some e) ⊎ (e ≡ K.map_error (errors.Path OutOfMemory))) }

        // A fault, or that it is of the other kind, is returned even if memory has run out.
        ensures always { (e : K.Error) → fault_of K.has_scheme K.map_error K.other bytes.now ≡ Some e → result ≡ Err e }
    {
        match ViewOf::<K>::try_from_bytes(bytes) {
            Ok(view) => match view.to_text(alloc) {
                Ok(text) => Ok(text),
                Err(AllocError) => Err(K::map_error(URIReferenceError::Path(
                    PathError::OutOfMemory,
                ))),
            },
            Err(error) => Err(error),
        }
    }

    /// Like [`try_from_bytes`](TextOf::try_from_bytes), for a `str`.
    pub fn try_from_str(alloc: Global, text: &str) -> Result<TextOf<K>, K::Error>
        ensures text { IfOk result (λ v. v.text ≡ text.now) }
        ensures found { IfOk result (λ v. Spells text.now v.parts) }
        ensures kind { IfOk result (λ v. IsOfKind K.has_scheme v.parts) }
        ensures only { (p : Parts) → Spells text.now p → IsOfKind K.has_scheme p → IsUnless (K.map_error (errors.Path OutOfMemory)) result (Ok (record { text = text.now; parts = p })) }
        ensures fault { IfErr result (λ e. (fault_of K.has_scheme K.map_error K.other text.now ≡ Some e) ⊎ (e ≡ K.map_error (errors.Path OutOfMemory))) }
        ensures always { (e : K.Error) → fault_of K.has_scheme K.map_error K.other text.now ≡ Some e → result ≡ Err e }
    {
        TextOf::try_from_bytes(alloc, text.as_bytes())
    }

    /// Reads a reference of this kind from a text that it takes over. Does not allocate.
    ///
    /// A text that [`ViewOf::try_from_bytes`] rejects comes back with that error.
    pub fn try_from_string(text: String) -> Result<TextOf<K>, RejectedText<K::Error>>
        // The result keeps the text, which spells its components, and is of the kind.
        ensures text { IfOk result (λ v. v.text ≡ string_bytes text) }
        ensures found { IfOk result (λ v. Spells v.text v.parts) }
        ensures kind { IfOk result (λ v. IsOfKind K.has_scheme v.parts) }

        // A text that spells a reference of the kind is accepted.
        ensures only { (p : Parts) → Spells (string_bytes text) p → IsOfKind K.has_scheme p → IsOk result }

        // Any other comes back with its fault, or because it is of the other kind.
        ensures fault { IfErr result (λ r. (string_bytes r.text ≡ string_bytes text) × (fault_of K.has_scheme K.map_error K.other (string_bytes text) ≡ Some r.error)) }
    {
        match ReferenceText::try_from_string(text) {
            Ok(text) => Self::of(text),
            Err(rejected) => {
                let RejectedText { text, error } = rejected;
                Err(RejectedText {
                    text,
                    error: K::map_error(error),
                })
            }
        }
    }

    /// The text, if its reference is of this kind, or else the text and the error for the other kind.
    fn of(text: ReferenceText) -> Result<TextOf<K>, RejectedText<K::Error>>
        ensures kind { IfOk result (λ v. IsOfKind K.has_scheme v.parts) }
        ensures same { IfOk result (λ v. v ≡ text) }
        ensures only { IsOfKind K.has_scheme text.parts → IsOk result }
        ensures other { IfErr result (λ r. (string_bytes r.text ≡ text.text) × (r.error ≡ K.other) × (IsOfKind K.has_scheme text.parts → ⊥)) }
    {
        if text.as_view().has_scheme() == K::has_scheme() {
            Ok(TextOf::of_checked(text))
        } else {
            Err(RejectedText {
                text: text.into_string(),
                error: K::other(),
            })
        }
    }

    /// The text, viewed as a reference of this kind: all that a view answers. Takes no memory, and the
    /// same time for each text, as [`ReferenceText::as_view`] does.
    pub fn as_view(&self) -> ViewOf<'_, K>
        ensures view { result ≡ self.now }
        ensures kind { IsOfKind K.has_scheme self.now.parts }
    {
        ViewOf::of_checked(self.text.as_view())
    }

    /// The whole text, as it was read.
    pub fn as_str(&self) -> &str
        ensures text { result.now ≡ self.now.text }
        ensures spelled { Spells self.now.text self.now.parts }
    {
        self.text.as_str()
    }

    /// The text itself. Does not allocate.
    pub fn into_string(self) -> String
        ensures text { string_bytes result ≡ self.text }
        ensures spelled { Spells self.text self.parts }
    {
        let TextOf { text, kind: _kind } = self;
        text.into_string()
    }

    /// The text, as a reference of any kind.
    pub fn as_reference_text(&self) -> &ReferenceText
        ensures value { result.now ≡ self.now }
        ensures kind { IsOfKind K.has_scheme self.now.parts }
    {
        &self.text
    }

    /// The text, as a reference of any kind. Does not allocate.
    pub fn into_reference_text(self) -> ReferenceText
        ensures value { result ≡ self }
        ensures kind { IsOfKind K.has_scheme self.parts }
    {
        let TextOf { text, kind: _kind } = self;
        text
    }

    /// A copy. Allocates once, exactly the text's length.
    pub fn try_clone(&self, alloc: Global) -> Result<TextOf<K>, AllocError>
        ensures { IfOk result (λ v. v ≡ self.now) }
    {
        Ok(TextOf::of_checked(self.text.try_clone(alloc)?))
    }
}

impl<'t, K: ReferenceKind> ViewOf<'t, K> {
    /// The reference in a copy of its text, which it owns. Allocates once, exactly the text's length.
    pub fn to_text(&self, alloc: Global) -> Result<TextOf<K>, AllocError>
        ensures { IfOk result (λ v. v ≡ self.now) }
    {
        Ok(TextOf::of_checked(self.view.to_text(alloc)?))
    }
}

impl<K: ReferenceKind> PartialEq for TextOf<K> {
    ghost eq = { on view_key bytes_eq };

    ghost laws = { Prim.search (comparing, rules) };

    fn eq(&self, other: &TextOf<K>) -> bool {
        self.text == other.text
    }
}

impl<K: ReferenceKind> Eq for TextOf<K> {
    ghost laws = { Prim.search (comparing, rules) };
}

impl<K: ReferenceKind> Hash for TextOf<K> {
    ghost hash_input = { λ v. fed_key (view_key v) };

    ghost respects_eq = { Prim.search (hashing, rules) };

    fn hash<H: Hasher>(&self, state: &mut H)
        ensures fed { state.new ≡ fold H.write state.old (fed self.now.parts) }
        ensures key { state.new ≡ fold H.write state.old (fed_key (key self.now.parts)) }
    {
        self.text.hash(state);
    }
}

impl<K: ReferenceKind> fmt::Display for TextOf<K> {
    ghost output = { λ v. Some v.text };

    // The formatter's options have no effect.
    ghost styled_output = { λ v _. Some v.text };

    fn fmt<W: fmt::Write>(&self, f: &mut fmt::Formatter<W>) -> fmt::Result {
        fmt::Display::fmt(&self.text, f)
    }
}

impl<K: ReferenceKind> fmt::Debug for TextOf<K> {
    fn fmt<W: fmt::Write>(&self, f: &mut fmt::Formatter<W>) -> fmt::Result {
        f.debug_tuple(K::name()).field(&self.text).finish()
    }
}
