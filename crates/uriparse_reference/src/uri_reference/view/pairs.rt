//! The pairs of the query of a reference in its text: RFC 3986, section 3.4.
ghost use Rattle.std.specs.Prelude.{◌≡◌, IfSome};
ghost use Rattle.std.specs.Option.{option_copied};
ghost use Rattle.uriparse_text.specs.Query.{IsQuery};
ghost use Rattle.uriparse_reference.specs.PairEdits as spec;

use super::ReferenceView;
use super::offsets::skip;
use uriparse_text::internal::{
    Named, checked_text, find_pair, split_at_delimiter, without_delimiter,
};
use uriparse_text::query::Query;

impl<'t> ReferenceView<'t> {
    /// The query's bytes, if there is a query. No byte is read.
    fn query_bytes(&self) -> Option<&'t [u8]>
        ensures bytes { option_copied result ≡ self.now.parts.query }
        ensures valid { IfSome self.now.parts.query IsQuery }
    {
        let text = self.as_str().as_bytes();
        let before_fragment = &text[..self.len_before_fragment()];
        without_delimiter(skip(self.without_end().len(), before_fragment))
    }

    /// The value of the query's first pair of this name, as [`Query::pair`] finds it: empty if the
    /// pair has no `=`, and `None` without such a pair or without a query. It borrows the text that
    /// was read, to be decoded. Does not allocate.
    ///
    /// ```
    /// let view = ReferenceView::try_from_str("/search?q=a%20b&page=2#end")?;
    /// assert!(view.pair(b"page").is_some_and(|value| value.as_str() == "2"));
    /// assert!(view.pair(b"p").is_none());
    /// ```
    pub fn pair(&self, name: &[u8]) -> Option<Query<'t>>
        ensures { result ≡ spec.pair_in name.now self.now.parts }
    {
        let query = self.query_bytes()?;
        let left = find_pair(&Named(name), query)?;
        let (piece, _) = split_at_delimiter(left, b'&');
        let (_, rest) = split_at_delimiter(piece, b'=');
        Some(checked_text(without_delimiter(rest).unwrap_or(b"")))
    }

    /// Whether the query has a pair of this name, as [`Query::has_pair`] finds it. Does not allocate.
    pub fn has_pair(&self, name: &[u8]) -> bool
        ensures { result ≡ spec.has_pair_in name.now self.now.parts }
    {
        match self.query() {
            Some(query) => query.has_pair(name),
            None => false,
        }
    }
}
