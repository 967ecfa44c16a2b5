//! The text of a reference with components changed, in memory of its own: RFC 3986, section 5.3.
ghost use Rattle.std.specs.Prelude.{◌≡◌};
ghost use Rattle.uriparse_reference.specs.Change as spec;
ghost use Rattle.uriparse_reference.specs.View.{Viewed};

use super::super::change::{ChangeError, Changes};
use super::super::view::ReferenceView;
use super::ReferenceText;
use super::make::checked_text;
use std::alloc::Global;

impl<'t> ReferenceView<'t> {
    /// The reference with some components changed, in a text of its own: the string that
    /// [`change_into`](ReferenceView::change_into) writes, with the same errors in the same order;
    /// then [`OutOfMemory`](ChangeError::OutOfMemory) if memory runs out. Allocates once, exactly
    /// the string's length.
    ///
    /// ```
    /// let view = ReferenceView::try_from_str("http://u@h/a")?;
    /// let mut changes = Changes::none();
    /// changes.username = Change::Remove;
    /// let text = view.change_to_text(alloc, &changes)?;
    /// assert!(text.as_str() == "http://h/a" && !text.as_view().has_username());
    /// ```
    pub fn change_to_text(
        &self,
        alloc: Global,
        changes: &Changes<'_>,
    ) -> Result<ReferenceText, ChangeError>
        ensures { spec.ChangesTo (λ (r v : Viewed). r ≡ v) (spec.changing changes.now self.now.text) result }
    {
        match self.change_to_string(alloc, changes) {
            Ok(text) => Ok(checked_text(text)),
            Err(error) => Err(error),
        }
    }
}

impl ReferenceText {
    /// Changes some components, as [`change_into`](ReferenceView::change_into) does; the others keep
    /// their bytes. Allocates once, exactly the new string's length. On an error the text is
    /// unchanged.
    ///
    /// ```
    /// let mut text = ReferenceText::try_from_str(alloc, "HTTP://u@h/%7Ea#f")?;
    /// let mut changes = Changes::none();
    /// changes.host = Change::Set(b"example.org");
    /// text.change(alloc, &changes)?;
    /// assert!(text.as_str() == "HTTP://u@example.org/%7Ea#f");
    /// ```
    pub fn change(&mut self, alloc: Global, changes: &Changes<'_>) -> Result<(), ChangeError>
        ensures { spec.ChangesInPlace (spec.changing changes.now self.old.text) result self.old self.new }
    {
        *self = self.as_view().change_to_text(alloc, changes)?;
        Ok(())
    }
}
