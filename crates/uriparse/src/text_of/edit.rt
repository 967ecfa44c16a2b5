//! Another query or another fragment in a text that is owned: RFC 3986, sections 3.4 and 3.5.
ghost use Rattle.std.specs.Prelude.{◌≡◌, IfOk, IsOk, MatchResult, None, Ok};
ghost use Rattle.uriparse_reference.specs.Edits.{edited};
ghost use Rattle.uriparse_reference.specs.TextEdits.{with_fragment, with_query};
ghost use Rattle.uriparse_reference.specs.declared.uri_reference.edit.Edit.TheVariants as edits;
ghost use Rattle.uriparse.specs.Kinds.{IsOfKind};

use super::TextOf;
use crate::kind::ReferenceKind;
use std::alloc::{AllocError, Global};
use uriparse_text::fragment::Fragment;
use uriparse_text::query::Query;

impl<K: ReferenceKind> TextOf<K> {
    /// Sets or removes the query, as [`ReferenceText::set_query`](uriparse_reference::uri_reference::ReferenceText::set_query)
    /// does. Allocates once, exactly the new text's length, or not at all if the text stays the same. If
    /// memory runs out, the text is unchanged.
    pub fn set_query(&mut self, alloc: Global, query: Option<Query<'_>>) -> Result<(), AllocError>
        ensures text { MatchResult result (λ _. self.new.text ≡ with_query self.old.text query.entry) (λ _. self.new ≡ self.old) }
        ensures parts { IfOk result (λ _. edited self.old.parts (edits.Query query.entry) ≡ Ok self.new.parts) }
        ensures takes_no_memory { with_query self.old.text query.entry ≡ self.old.text → IsOk result }
    {
        self.text.set_query(alloc, query)?;
        Ok(())
    }

    /// Sets or removes the fragment, as [`ReferenceText::set_fragment`](uriparse_reference::uri_reference::ReferenceText::set_fragment)
    /// does. Setting it allocates once, exactly the new text's length; removing it does not allocate.
    /// If memory runs out, the text is unchanged.
    pub fn set_fragment(
        &mut self,
        alloc: Global,
        fragment: Option<Fragment<'_>>,
    ) -> Result<(), AllocError>
        ensures text { MatchResult result (λ _. self.new.text ≡ with_fragment self.old.text fragment.entry) (λ _. self.new ≡ self.old) }
        ensures parts { IfOk result (λ _. edited self.old.parts (edits.Fragment fragment.entry) ≡ Ok self.new.parts) }
        ensures takes_no_memory { fragment.entry ≡ None → IsOk result }
    {
        self.text.set_fragment(alloc, fragment)?;
        Ok(())
    }

    /// The reference without its fragment, in the same memory. Of a URI this is an absolute URI: RFC
    /// 3986, section 4.3. Does not allocate.
    pub fn without_fragment(self) -> TextOf<K>
        ensures text { result.text ≡ with_fragment self.text None }
        ensures parts { edited self.parts (edits.Fragment None) ≡ Ok result.parts }
        ensures kind { IsOfKind K.has_scheme result.parts }
    {
        let TextOf { text, kind: _kind } = self;
        TextOf::of_checked(text.without_fragment())
    }
}
