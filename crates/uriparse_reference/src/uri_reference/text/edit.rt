//! Another query or another fragment in a text that is owned: RFC 3986, sections 3.4 and 3.5.
ghost use Rattle.std.specs.Prelude.{◌≡◌, ◌↔◌, IfOk, IfSome, IsOk, IsTrue, MatchResult, None, Ok, string_bytes};
ghost use Rattle.uriparse_text.specs.Fragment.{IsFragment};
ghost use Rattle.uriparse_text.specs.Query.{IsQuery};
ghost use Rattle.uriparse_reference.specs.Edits.{edited};
ghost use Rattle.uriparse_reference.specs.Reference.{Spells};
ghost use Rattle.uriparse_reference.specs.TextEdits.{with_fragment, with_query};
ghost use Rattle.uriparse_reference.specs.declared.uri_reference.edit.Edit.TheVariants as edits;

use super::super::same::has_same_text;
use super::ReferenceText;
use super::make::{checked_text, known_offsets};
use std::alloc::{AllocError, Global};
use uriparse_text::fragment::Fragment;
use uriparse_text::internal::Held;
use uriparse_text::query::Query;

impl ReferenceText {
    /// The text with this query.
    fn with_query(&self, alloc: Global, query: &Option<Query<'_>>) -> Result<String, AllocError>
        requires { IfSome query.now IsQuery }
        ensures text { IfOk result (λ s. string_bytes s ≡ with_query self.now.text query.now) }
        ensures spelled { Spells (with_query self.now.text query.now) (record self.now.parts { query = query.now }) }
    {
        let view = self.as_view();
        view.with_end(alloc, query, &Held(view.fragment()).0)
    }

    /// The text with this fragment.
    fn with_fragment(
        &self,
        alloc: Global,
        fragment: &Option<Fragment<'_>>,
    ) -> Result<String, AllocError>
        requires { IfSome fragment.now IsFragment }
        ensures text { IfOk result (λ s. string_bytes s ≡ with_fragment self.now.text fragment.now) }
        ensures spelled { Spells (with_fragment self.now.text fragment.now) (record self.now.parts { fragment = fragment.now }) }
    {
        let view = self.as_view();
        view.with_end(alloc, &Held(view.query()).0, fragment)
    }

    /// Whether the query is this one, in the same spelling.
    fn has_query_text(&self, query: &Option<Query<'_>>) -> bool
        ensures same { IsTrue result ↔ (self.now.parts.query ≡ query.now) }
        ensures spelled { Spells self.now.text self.now.parts }
    {
        has_same_text(self.as_view().query().as_ref(), query.as_ref())
    }

    /// Sets or removes the query, as [`URIReference::set_query`](super::super::URIReference::set_query)
    /// does, and keeps the rest of the string byte for byte. Allocates once, exactly the new string's
    /// length, or not at all if the string stays the same. If memory runs out, it is unchanged.
    ///
    /// ```
    /// let mut text = ReferenceText::try_from_str(alloc, "HTTP://h/%7Ea?q#f")?;
    /// text.set_query(alloc, Some(Query::try_from_str("k=v")?))?;
    /// assert!(text.as_str() == "HTTP://h/%7Ea?k=v#f");
    /// text.set_query(alloc, None)?;
    /// assert!(text.as_str() == "HTTP://h/%7Ea#f" && !text.as_view().has_query());
    /// ```
    pub fn set_query(&mut self, alloc: Global, query: Option<Query<'_>>) -> Result<(), AllocError>
        ensures text { MatchResult result (λ _. self.new.text ≡ with_query self.old.text query.entry) (λ _. self.new ≡ self.old) }
        ensures parts { IfOk result (λ _. edited self.old.parts (edits.Query query.entry) ≡ Ok self.new.parts) }
        ensures takes_no_memory { with_query self.old.text query.entry ≡ self.old.text → IsOk result }
    {
        if self.has_query_text(&query) {
            return Ok(());
        }
        *self = checked_text(self.with_query(alloc, &query)?);
        Ok(())
    }

    /// Sets or removes the fragment, as
    /// [`URIReference::set_fragment`](super::super::URIReference::set_fragment) does, and keeps the
    /// rest of the text as it is spelled. Setting it allocates once, exactly the new text's length;
    /// removing it does not allocate. If memory runs out, the text is unchanged.
    ///
    /// ```
    /// let mut text = ReferenceText::try_from_str(alloc, "../a?q#f")?;
    /// text.set_fragment(alloc, Some(Fragment::try_from_str("/definitions/x")?))?;
    /// assert!(text.as_str() == "../a?q#/definitions/x");
    /// ```
    pub fn set_fragment(
        &mut self,
        alloc: Global,
        fragment: Option<Fragment<'_>>,
    ) -> Result<(), AllocError>
        ensures text { MatchResult result (λ _. self.new.text ≡ with_fragment self.old.text fragment.entry) (λ _. self.new ≡ self.old) }
        ensures parts { IfOk result (λ _. edited self.old.parts (edits.Fragment fragment.entry) ≡ Ok self.new.parts) }
        ensures takes_no_memory { fragment.entry ≡ None → IsOk result }
    {
        if fragment.is_none() {
            self.remove_fragment();
            return Ok(());
        }
        *self = checked_text(self.with_fragment(alloc, &fragment)?);
        Ok(())
    }

    /// Ends the text where the fragment begins.
    fn remove_fragment(&mut self)
        ensures text { self.new.text ≡ with_fragment self.old.text None }
        ensures parts { self.new.parts ≡ record self.old.parts { fragment = None } }
    {
        let len = self.as_view().len_before_fragment();
        self.text.truncate(len);
        self.offsets = known_offsets(self.text.as_bytes());
    }

    /// The reference without its fragment, in the same memory: RFC 3986, section 4.3. Does not
    /// allocate.
    ///
    /// ```
    /// let text = ReferenceText::try_from_str(alloc, "http://h/a.json?q#/definitions/x")?;
    /// assert!(text.without_fragment().as_str() == "http://h/a.json?q");
    /// ```
    pub fn without_fragment(self) -> ReferenceText
        ensures text { result.text ≡ with_fragment self.text None }
        ensures parts { edited self.parts (edits.Fragment None) ≡ Ok result.parts }
    {
        let mut text = self;
        text.remove_fragment();
        text
    }
}
