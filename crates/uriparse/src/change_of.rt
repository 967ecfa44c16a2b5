//! Changing the components of a URI or a relative reference in its string: RFC 3986, sections 3 and
//! 5.3.
ghost use Rattle.std.specs.Prelude.{◌≡◌, string_bytes};
ghost use Rattle.uriparse_reference.specs.View.{Viewed};
ghost use Rattle.uriparse_reference.specs.Wanted.{wish};
ghost use Rattle.uriparse.specs.ChangeOf as spec;
ghost use Rattle.uriparse.specs.declared.change_of.KindChangeError.TheVariants as errors;

use crate::kind::ReferenceKind;
use crate::text_of::TextOf;
use crate::view_of::ViewOf;
use std::alloc::Global;
use thiserror::Error;
use uriparse_reference::uri_reference::{Change, ChangeError, Changes};

/// Why a URI or a relative reference is not changed, or the result is not written or returned.
#[derive(Clone, Copy, Debug, PartialEq, Eq, Hash, Error)]
pub enum KindChangeError {
    /// The scheme of a URI is to be removed, or that of a relative reference to be set.
    #[error("change of a URI to a relative reference, or of that to a URI")]
    OtherKind,
    /// The error of the change.
    #[error(transparent)]
    Change(ChangeError),
}

impl From<ChangeError> for KindChangeError {
    ghost from_gives = { λ x e. e ≡ errors.Change x };

    fn from(error: ChangeError) -> KindChangeError {
        KindChangeError::Change(error)
    }
}

/// Whether a reference has a scheme after the change, too, or lacks it.
fn keeps_kind(has_scheme: bool, change: &Change<'_>) -> bool
    ensures { result ≡ spec.keeps_kind has_scheme (wish change.now) }
{
    match change {
        Change::Keep => true,
        Change::Remove => !has_scheme,
        Change::Set(_) => has_scheme,
    }
}

/// Tests whether a reference of the kind is one after the changes, too.
fn check_kind<K: ReferenceKind>(changes: &Changes<'_>) -> Result<(), KindChangeError>
    ensures { result ≡ spec.if_of_kind K.has_scheme changes.now }
{
    if keeps_kind(K::has_scheme(), &changes.scheme) {
        Ok(())
    } else {
        Err(KindChangeError::OtherKind)
    }
}

impl<'t, K: ReferenceKind> ViewOf<'t, K> {
    /// Writes the string with some components changed to the start of the buffer, and returns its
    /// length in bytes, as
    /// [`ReferenceView::change_into`](uriparse_reference::uri_reference::ReferenceView::change_into)
    /// does. Does not allocate.
    ///
    /// The error is [`OtherKind`](KindChangeError::OtherKind) if the scheme of a URI is to be
    /// removed, or that of a relative reference to be set; else
    /// [`Change`](KindChangeError::Change) of that call's error. On an error the buffer is unchanged.
    ///
    /// ```
    /// let view = URIView::try_from_str("http://h/a?q")?;
    /// let mut changes = Changes::none();
    /// changes.query = Change::Remove;
    /// let mut buffer = [0; 32];
    /// let len = view.change_into(&changes, &mut buffer)?;
    /// assert!(&buffer[..len] == b"http://h/a".as_slice());
    /// changes.scheme = Change::Remove;
    /// assert!(view.change_into(&changes, &mut buffer) == Err(KindChangeError::OtherKind));
    /// ```
    pub fn change_into(
        &self,
        changes: &Changes<'_>,
        out: &mut [u8],
    ) -> Result<usize, KindChangeError>
        ensures { spec.WritesChanged (spec.changing K.has_scheme changes.now self.now.text) result out.old out.new }
    {
        check_kind::<K>(changes)?;
        match self.view.change_into(changes, out) {
            Ok(len) => Ok(len),
            Err(error) => Err(KindChangeError::Change(error)),
        }
    }

    /// The string that [`change_into`](ViewOf::change_into) writes, with the same errors in the same
    /// order; then [`Change`](KindChangeError::Change) of [`OutOfMemory`](ChangeError::OutOfMemory) if
    /// memory runs out. Allocates once, exactly its length.
    ///
    /// ```
    /// let view = RelativeReferenceView::try_from_str("//u@h/a")?;
    /// let mut changes = Changes::none();
    /// changes.host = Change::Set(b"example.org");
    /// assert_eq!(view.change_to_string(alloc, &changes)?.as_str(), "//u@example.org/a");
    /// ```
    pub fn change_to_string(
        &self,
        alloc: Global,
        changes: &Changes<'_>,
    ) -> Result<String, KindChangeError>
        ensures { spec.ChangesTo (λ s (v : Viewed). string_bytes s ≡ v.text) (spec.changing K.has_scheme changes.now self.now.text) result }
    {
        check_kind::<K>(changes)?;
        match self.view.change_to_string(alloc, changes) {
            Ok(string) => Ok(string),
            Err(error) => Err(KindChangeError::Change(error)),
        }
    }

    /// The same string as a text of its own, of the same kind. Allocates once, exactly its length.
    ///
    /// ```
    /// let view = URIView::try_from_str("http://u@h/a")?;
    /// let mut changes = Changes::none();
    /// changes.username = Change::Remove;
    /// assert!(view.change_to_text(alloc, &changes)?.as_str() == "http://h/a");
    /// ```
    pub fn change_to_text(
        &self,
        alloc: Global,
        changes: &Changes<'_>,
    ) -> Result<TextOf<K>, KindChangeError>
        ensures { spec.ChangesTo (λ (r v : Viewed). r ≡ v) (spec.changing K.has_scheme changes.now self.now.text) result }
    {
        check_kind::<K>(changes)?;
        let _text = self.as_str();
        match self.view.change_to_text(alloc, changes) {
            Ok(text) => Ok(TextOf::of_checked(text)),
            Err(error) => Err(KindChangeError::Change(error)),
        }
    }
}

impl<K: ReferenceKind> TextOf<K> {
    /// Changes some components, as [`ViewOf::change_into`] does, with the same errors. The other
    /// components stay as they are there. Allocates once, exactly the new string's length. On an error
    /// the text is unchanged.
    ///
    /// ```
    /// let mut text = URIText::try_from_str(alloc, "HTTP://u@h/%7Ea#f")?;
    /// let mut changes = Changes::none();
    /// changes.host = Change::Set(b"example.org");
    /// text.change(alloc, &changes)?;
    /// assert!(text.as_str() == "HTTP://u@example.org/%7Ea#f");
    /// ```
    pub fn change(&mut self, alloc: Global, changes: &Changes<'_>) -> Result<(), KindChangeError>
        ensures { spec.ChangesInPlace (spec.changing K.has_scheme changes.now self.old.text) result self.old self.new }
    {
        *self = self.as_view().change_to_text(alloc, changes)?;
        Ok(())
    }
}
