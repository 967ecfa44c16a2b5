//! A reference of one kind in its text, read without memory: what views of URIs and of relative
//! references share.
ghost use Rattle.std.specs.Prelude.{◌≡◌, if◌then◌else◌, IfErr, IfOk, IsOk, Ok, Err, Some, bytes_eq, fold, is_some, length, string_bytes};
ghost use Rattle.std.specs.Bool.{beq};
ghost use Rattle.std.proofs.Common.{rules};
ghost use Rattle.std.specs.Ordering.{on};
ghost use Rattle.std.specs.Cmp.Rules.{comparing, hashing};
ghost use Rattle.uriparse_reference.specs.Into.{Writes};
ghost use Rattle.uriparse_reference.specs.Key.{fed, fed_key, key};
ghost use Rattle.uriparse_reference.specs.Normal.{normal};
ghost use Rattle.uriparse_reference.specs.Reference.{print};
ghost use Rattle.uriparse_reference.specs.View.{view_key};
ghost use Rattle.uriparse.specs.Kinds.{IsOfKind, fault_of, viewed_of};

use crate::kind::ReferenceKind;
use crate::reference_of::ReferenceOf;
use std::alloc::{AllocError, Global};
use std::fmt;
use std::hash::{Hash, Hasher};
use std::marker::{Model, PhantomData};
use std::ops::Deref;
use uriparse_reference::uri_reference::{BufferError, ReferenceView};

mod pairs;

/// A reference with a scheme or one without, by its kind, in its text. Users name it
/// [`URIView`](crate::uri::URIView) or
/// [`RelativeReferenceView`](crate::relative_reference::RelativeReferenceView). Contracts see it as
/// the text that was read and its components.
///
/// It is read as the [`ReferenceView`] that it lends ([`as_reference_view`](ViewOf::as_reference_view)):
/// `view.host()`, `view.path()` and its other calls return the components. Two of them are equal if
/// their views are.
#[derive(Drop)]
pub struct ViewOf<'t, K: ReferenceKind> {
    pub(crate) view: ReferenceView<'t>,
    kind: PhantomData<K>,
}

impl<'t, K: ReferenceKind> Model for ViewOf<'t, K> {
    ghost use Rattle.uriparse_reference.specs.View.{Viewed};
    ghost use Rattle.uriparse.specs.Kinds.{IsOfKind};

    ghost Value = { Viewed };

    ghost view = { λ v. v.view };

    ghost invariant = { λ v. IsOfKind K.has_scheme v.view.parts };
}

impl<'t, K: ReferenceKind> ViewOf<'t, K> {
    ghost use Rattle.uriparse_reference.specs.Reference.{Parts, Spells};

    /// Wraps a view that is known to be of this kind.
    pub(crate) fn of_checked(view: ReferenceView<'t>) -> ViewOf<'t, K>
        requires { IsOfKind K.has_scheme view.parts }
        ensures { result ≡ view.entry }
    {
        ViewOf {
            view,
            kind: PhantomData,
        }
    }

    /// The view, if its reference is of this kind.
    fn of(view: ReferenceView<'t>) -> Result<ViewOf<'t, K>, K::Error>
        ensures { result ≡ (if beq (is_some view.entry.parts.scheme) K.has_scheme then Ok view.entry else Err K.other) }
    {
        if view.has_scheme() == K::has_scheme() {
            Ok(ViewOf {
                view,
                kind: PhantomData,
            })
        } else {
            Err(K::other())
        }
    }

    /// Finds the components of the text, or why it is rejected.
    fn read(bytes: &'t [u8]) -> Result<ViewOf<'t, K>, K::Error>
        ensures { result ≡ viewed_of K.has_scheme K.map_error K.other bytes.now }
    {
        match ReferenceView::try_from_bytes(bytes) {
            Ok(view) => ViewOf::of(view),
            Err(error) => Err(K::map_error(error)),
        }
    }

    /// Reads a reference of this kind, which borrows the bytes. Does not allocate.
    ///
    /// Fails as [`ReferenceOf::try_from_bytes`] does: with the text's fault, mapped to the kind's
    /// error, or with the error for a reference of the other kind.
    pub fn try_from_bytes(bytes: &'t [u8]) -> Result<ViewOf<'t, K>, K::Error>
        // The result keeps the text, which spells its components, and is of the kind.
        ensures text { IfOk result (λ v. v.text ≡ bytes.now) }
        ensures found { IfOk result (λ v. Spells bytes.now v.parts) }
        ensures kind { IfOk result (λ v. IsOfKind K.has_scheme v.parts) }

        // A text that spells a reference of the kind is accepted.
        ensures only { (p : Parts) → Spells bytes.now p → IsOfKind K.has_scheme p → result ≡ Ok (record { text = bytes.now; parts = p }) }

        // Any other is rejected with its fault, or because it is of the other kind.
        ensures fault { IfErr result (λ e. fault_of K.has_scheme K.map_error K.other bytes.now ≡ Some e) }
    {
        Self::read(bytes)
    }

    /// Like [`try_from_bytes`](ViewOf::try_from_bytes), for a `str`.
    pub fn try_from_str(text: &'t str) -> Result<ViewOf<'t, K>, K::Error>
        ensures text { IfOk result (λ v. v.text ≡ text.now) }
        ensures found { IfOk result (λ v. Spells text.now v.parts) }
        ensures kind { IfOk result (λ v. IsOfKind K.has_scheme v.parts) }
        ensures only { (p : Parts) → Spells text.now p → IsOfKind K.has_scheme p → result ≡ Ok (record { text = text.now; parts = p }) }
        ensures fault { IfErr result (λ e. fault_of K.has_scheme K.map_error K.other text.now ≡ Some e) }
    {
        Self::read(text.as_bytes())
    }

    /// The view, of a reference of any kind: its calls return the components.
    pub fn as_reference_view(&self) -> &ReferenceView<'t>
        ensures value { result.now ≡ self.now }
        ensures kind { IsOfKind K.has_scheme self.now.parts }
    {
        &self.view
    }

    /// The whole text, as it was read.
    pub fn as_str(&self) -> &'t str
        ensures text { result.now ≡ self.now.text }
        ensures spelled { Spells self.now.text self.now.parts }
    {
        self.view.as_str()
    }

    /// Writes the text of the normal form to the start of the buffer, as
    /// [`ReferenceView::normalize_into`] does. Does not allocate.
    pub fn normalize_into(&self, out: &mut [u8]) -> Result<usize, BufferError>
        ensures { Writes (print (normal self.now.parts)) result out.old out.new }
    {
        self.view.normalize_into(out)
    }

    /// The text of the normal form. Allocates once, exactly its length; fails only if memory runs
    /// out.
    pub fn normalize_to_string(&self, alloc: Global) -> Result<String, AllocError>
        ensures { IfOk result (λ s. string_bytes s ≡ print (normal self.now.parts)) }
    {
        self.view.normalize_to_string(alloc)
    }

    /// The value, whose components borrow the text. Allocates only for the list of the path's
    /// segments, if there is more than one.
    pub(crate) fn to_value(&self, alloc: Global) -> Result<ReferenceOf<'t, K>, AllocError>
        ensures value { IfOk result (λ u. u ≡ self.now.parts) }
        ensures takes_no_memory { length self.now.parts.path.segments ≡ 1 → IsOk result }
    {
        match self.view.to_reference(alloc) {
            Ok(reference) => Ok(ReferenceOf::of_checked(reference)),
            Err(error) => Err(error),
        }
    }
}

/// A view of one kind is read as a view of any kind is: `view.host()` is the host.
impl<'t, K: ReferenceKind> Deref for ViewOf<'t, K> {
    type Target = ReferenceView<'t>;

    ghost deref_gives = { λ v r. r ≡ v };

    fn deref(&self) -> &ReferenceView<'t> {
        &self.view
    }
}

impl<'t, K: ReferenceKind> From<ViewOf<'t, K>> for ReferenceView<'t> {
    ghost from_gives = { λ v w. w ≡ v };

    fn from(view: ViewOf<'t, K>) -> ReferenceView<'t> {
        view.view
    }
}

/// A view of a reference of the other kind is rejected.
impl<'t, K: ReferenceKind> TryFrom<ReferenceView<'t>> for ViewOf<'t, K> {
    type Error = K::Error;

    ghost try_from_gives = { λ v answer. answer ≡ (if beq (is_some v.parts.scheme) K.has_scheme then Ok v else Err K.other) };

    fn try_from(view: ReferenceView<'t>) -> Result<ViewOf<'t, K>, K::Error> {
        ViewOf::of(view)
    }
}

impl<'t, K: ReferenceKind> PartialEq for ViewOf<'t, K> {
    ghost eq = { on view_key bytes_eq };

    ghost laws = { Prim.search (comparing, rules) };

    fn eq(&self, other: &ViewOf<'t, K>) -> bool {
        self.view == other.view
    }
}

impl<'t, K: ReferenceKind> Eq for ViewOf<'t, K> {
    ghost laws = { Prim.search (comparing, rules) };
}

impl<'t, K: ReferenceKind> Hash for ViewOf<'t, K> {
    ghost hash_input = { λ v. fed_key (view_key v) };

    ghost respects_eq = { Prim.search (hashing, rules) };

    fn hash<H: Hasher>(&self, state: &mut H)
        ensures fed { state.new ≡ fold H.write state.old (fed self.now.parts) }
        ensures key { state.new ≡ fold H.write state.old (fed_key (key self.now.parts)) }
    {
        self.view.hash(state);
    }
}

impl<'t, K: ReferenceKind> fmt::Display for ViewOf<'t, K> {
    ghost output = { λ v. Some v.text };

    // The formatter's options have no effect.
    ghost styled_output = { λ v _. Some v.text };

    fn fmt<W: fmt::Write>(&self, f: &mut fmt::Formatter<W>) -> fmt::Result {
        fmt::Display::fmt(&self.view, f)
    }
}

impl<'t, K: ReferenceKind> fmt::Debug for ViewOf<'t, K> {
    fn fmt<W: fmt::Write>(&self, f: &mut fmt::Formatter<W>) -> fmt::Result {
        f.debug_tuple(K::name()).field(&self.view).finish()
    }
}
