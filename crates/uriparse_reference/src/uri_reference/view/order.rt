//! The order of references in their texts, component by component, each by its canonical spelling.
//! Nothing here allocates.
ghost use Rattle.std.specs.Prelude.{◌≡◌, refl};
ghost use Rattle.std.specs.Cmp.Lexicographic.{slice_cmp};
ghost use Rattle.std.specs.Option.{option_cmp};
ghost use Rattle.std.specs.Ordering.{as_partial_cmp, nat_cmp, on};
ghost use Rattle.uriparse_authority.specs.Order.{rank_cmp};
ghost use Rattle.uriparse_reference.specs.Order.{ordered_po, ordered_ties, ordered_total, rank, reference_cmp, reference_key_cmp};
ghost use Rattle.uriparse_reference.specs.Reference.{Valid};
ghost use Rattle.uriparse_reference.specs.View.{view_key};

use super::ReferenceView;
use std::cmp::Ordering;
use uriparse_path::internal::compare_path_texts;
use uriparse_text::internal::Held;

impl<'t> ReferenceView<'t> {
    /// Compares the schemes.
    fn compare_schemes(&self, other: &ReferenceView<'t>) -> Ordering
        ensures { result ≡ option_cmp (slice_cmp nat_cmp) (rank self.now.parts).scheme (rank other.now.parts).scheme }
    {
        Held(self.scheme()).0.cmp(&Held(other.scheme()).0)
    }

    /// Compares the authorities.
    fn compare_authorities(&self, other: &ReferenceView<'t>) -> Ordering
        requires valid { Valid self.now.parts }
        requires valid_other { Valid other.now.parts }
        ensures { result ≡ option_cmp rank_cmp (rank self.now.parts).authority (rank other.now.parts).authority }
    {
        Held(self.authority()).0.cmp(&Held(other.authority()).0)
    }

    /// Compares the queries.
    fn compare_queries(&self, other: &ReferenceView<'t>) -> Ordering
        ensures { result ≡ option_cmp (slice_cmp nat_cmp) (rank self.now.parts).query (rank other.now.parts).query }
    {
        Held(self.query()).0.cmp(&Held(other.query()).0)
    }

    /// Compares the fragments.
    fn compare_fragments(&self, other: &ReferenceView<'t>) -> Ordering
        ensures { result ≡ option_cmp (slice_cmp nat_cmp) (rank self.now.parts).fragment (rank other.now.parts).fragment }
    {
        Held(self.fragment()).0.cmp(&Held(other.fragment()).0)
    }

    /// Compares the components in their order.
    fn compare_each(&self, other: &ReferenceView<'t>) -> Ordering
        ensures test { result ≡ reference_cmp self.now.parts other.now.parts }
        ensures valid { Valid self.now.parts × Valid other.now.parts }
    {
        let path = self.path_bytes();
        let other_path = other.path_bytes();
        match self.compare_schemes(other) {
            Ordering::Equal => {}
            order => return order,
        }
        match self.compare_authorities(other) {
            Ordering::Equal => {}
            order => return order,
        }
        match compare_path_texts(path, other_path) {
            Ordering::Equal => {}
            order => return order,
        }
        match self.compare_queries(other) {
            Ordering::Equal => {}
            order => return order,
        }
        self.compare_fragments(other)
    }
}

impl<'t> PartialOrd for ReferenceView<'t> {
    ghost partial_cmp = { as_partial_cmp (on view_key reference_key_cmp) };

    ghost laws = { ordered_po view_key };

    fn partial_cmp(&self, other: &ReferenceView<'t>) -> Option<Ordering> {
        Some(self.cmp(other))
    }
}

/// The first component that differs decides: the scheme, the authority, the path, the query or the
/// fragment. An absent one is less than any that is present.
impl<'t> Ord for ReferenceView<'t> {
    ghost cmp = { on view_key reference_key_cmp };

    ghost total = { ordered_total view_key };

    ghost matches_partial_cmp = { λ v w. refl };

    ghost matches_eq = { ordered_ties view_key };

    fn cmp(&self, other: &ReferenceView<'t>) -> Ordering
        ensures key { result ≡ reference_key_cmp (view_key self.now) (view_key other.now) }
        ensures parts { result ≡ reference_cmp self.now.parts other.now.parts }
    {
        self.compare_each(other)
    }
}
