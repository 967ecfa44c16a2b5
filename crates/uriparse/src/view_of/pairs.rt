//! The pairs of the query of a URI or a relative reference in its text: RFC 3986, section 3.4.
ghost use Rattle.std.specs.Prelude.{◌≡◌};
ghost use Rattle.uriparse_reference.specs.PairEdits as spec;

use super::ViewOf;
use crate::kind::ReferenceKind;
use uriparse_text::query::Query;

impl<'t, K: ReferenceKind> ViewOf<'t, K> {
    /// The value of the query's first pair of this name, as [`Query::pair`] finds it: empty if the
    /// pair has no `=`, and `None` without such a pair or without a query. It borrows the text that
    /// was read. Does not allocate.
    pub fn pair(&self, name: &[u8]) -> Option<Query<'t>>
        ensures { result ≡ spec.pair_in name.now self.now.parts }
    {
        self.view.pair(name)
    }

    /// Whether the query has a pair of this name, as [`Query::has_pair`] finds it. Does not allocate.
    pub fn has_pair(&self, name: &[u8]) -> bool
        ensures { result ≡ spec.has_pair_in name.now self.now.parts }
    {
        self.view.has_pair(name)
    }
}
