//! The order of views and texts of one kind: the order of the references. Nothing here allocates.
ghost use Rattle.std.specs.Prelude.{◌≡◌, refl};
ghost use Rattle.std.specs.Ordering.{as_partial_cmp, on};
ghost use Rattle.uriparse_reference.specs.Order.{ordered_po, ordered_ties, ordered_total, reference_cmp, reference_key_cmp};
ghost use Rattle.uriparse_reference.specs.View.{view_key};

use crate::kind::ReferenceKind;
use crate::text_of::TextOf;
use crate::view_of::ViewOf;
use std::cmp::Ordering;

impl<'t, K: ReferenceKind> PartialOrd for ViewOf<'t, K> {
    ghost partial_cmp = { as_partial_cmp (on view_key reference_key_cmp) };

    ghost laws = { ordered_po view_key };

    fn partial_cmp(&self, other: &ViewOf<'t, K>) -> Option<Ordering> {
        Some(self.cmp(other))
    }
}

/// The order of [`ReferenceView`](crate::ReferenceView)s.
impl<'t, K: ReferenceKind> Ord for ViewOf<'t, K> {
    ghost cmp = { on view_key reference_key_cmp };

    ghost total = { ordered_total view_key };

    ghost matches_partial_cmp = { λ v w. refl };

    ghost matches_eq = { ordered_ties view_key };

    fn cmp(&self, other: &ViewOf<'t, K>) -> Ordering
        ensures key { result ≡ reference_key_cmp (view_key self.now) (view_key other.now) }
        ensures parts { result ≡ reference_cmp self.now.parts other.now.parts }
    {
        self.view.cmp(&other.view)
    }
}

impl<K: ReferenceKind> PartialOrd for TextOf<K> {
    ghost partial_cmp = { as_partial_cmp (on view_key reference_key_cmp) };

    ghost laws = { ordered_po view_key };

    fn partial_cmp(&self, other: &TextOf<K>) -> Option<Ordering> {
        Some(self.cmp(other))
    }
}

/// The order of [`ReferenceText`](crate::ReferenceText)s.
impl<K: ReferenceKind> Ord for TextOf<K> {
    ghost cmp = { on view_key reference_key_cmp };

    ghost total = { ordered_total view_key };

    ghost matches_partial_cmp = { λ v w. refl };

    ghost matches_eq = { ordered_ties view_key };

    fn cmp(&self, other: &TextOf<K>) -> Ordering
        ensures key { result ≡ reference_key_cmp (view_key self.now) (view_key other.now) }
        ensures parts { result ≡ reference_cmp self.now.parts other.now.parts }
    {
        self.text.cmp(&other.text)
    }
}
