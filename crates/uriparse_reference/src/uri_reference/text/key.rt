//! References as keys of sets and maps, which keep owned texts and are asked by views.
ghost use Rattle.std.specs.Prelude.{◌≡◌, bytes_eq, refl};
ghost use Rattle.std.proofs.Common.{rules};
ghost use Rattle.std.specs.Ordering.{as_partial_cmp, on};
ghost use Rattle.std.specs.Cmp.Rules.{comparing, hashing};
ghost use Rattle.uriparse_reference.specs.Key.{fed_key};
ghost use Rattle.uriparse_reference.specs.Order.{ordered_po, ordered_ties, ordered_total, reference_cmp, reference_key_cmp};
ghost use Rattle.uriparse_reference.specs.TextKey.{keyed};
ghost use Rattle.uriparse_reference.specs.View.{view_key};

use super::super::view::ReferenceView;
use super::ReferenceText;
use std::cmp::Ordering;
use std::hash::{Hash, Hasher};

/// A reference as a key of a set or a map: the set keeps texts that it owns, and answers for a view
/// without a copy of its text.
///
/// Two keys are equal, and hash alike, if the references are equal, whatever holds them.
///
/// ```
/// let mut known = HashSet::new(alloc);
/// known.insert(ReferenceKey::Text(ReferenceText::try_from_str(alloc, "http://h/%7Ea")?))?;
/// let view = ReferenceView::try_from_str("HTTP://H/~a")?;
/// assert!(known.contains(&ReferenceKey::View(&view)));
/// ```
#[derive(Drop)]
pub enum ReferenceKey<'v> {
    /// A text that the key owns.
    Text(ReferenceText),
    /// A view that the key borrows.
    View(&'v ReferenceView<'v>),
}

impl<'v> PartialEq for ReferenceKey<'v> {
    ghost eq = { on (λ k. view_key (keyed k)) bytes_eq };

    ghost laws = { Prim.search (comparing, rules) };

    fn eq(&self, other: &ReferenceKey<'v>) -> bool {
        match (self, other) {
            (ReferenceKey::Text(text), ReferenceKey::Text(other)) => text == other,
            (ReferenceKey::Text(text), ReferenceKey::View(view)) => text.as_view() == **view,
            (ReferenceKey::View(view), ReferenceKey::Text(text)) => **view == text.as_view(),
            (ReferenceKey::View(view), ReferenceKey::View(other)) => **view == **other,
        }
    }
}

impl<'v> Eq for ReferenceKey<'v> {
    ghost laws = { Prim.search (comparing, rules) };
}

impl<'v> Hash for ReferenceKey<'v> {
    ghost hash_input = { λ k. fed_key (view_key (keyed k)) };

    ghost respects_eq = { Prim.search (hashing, rules) };

    fn hash<H: Hasher>(&self, state: &mut H) {
        match self {
            ReferenceKey::Text(text) => text.hash(state),
            ReferenceKey::View(view) => view.hash(state),
        }
    }
}

impl<'v> PartialOrd for ReferenceKey<'v> {
    ghost partial_cmp = { as_partial_cmp (on (λ k. view_key (keyed k)) reference_key_cmp) };

    ghost laws = { ordered_po (λ k. view_key (keyed k)) };

    fn partial_cmp(&self, other: &ReferenceKey<'v>) -> Option<Ordering> {
        Some(self.cmp(other))
    }
}

/// The order of the references, whatever holds them.
impl<'v> Ord for ReferenceKey<'v> {
    ghost cmp = { on (λ k. view_key (keyed k)) reference_key_cmp };

    ghost total = { ordered_total (λ k. view_key (keyed k)) };

    ghost matches_partial_cmp = { λ k l. refl };

    ghost matches_eq = { ordered_ties (λ k. view_key (keyed k)) };

    fn cmp(&self, other: &ReferenceKey<'v>) -> Ordering
        ensures key { result ≡ reference_key_cmp (view_key (keyed self.now)) (view_key (keyed other.now)) }
        ensures parts { result ≡ reference_cmp (keyed self.now).parts (keyed other.now).parts }
    {
        match (self, other) {
            (ReferenceKey::Text(text), ReferenceKey::Text(other)) => text.cmp(other),
            (ReferenceKey::Text(text), ReferenceKey::View(view)) => text.as_view().cmp(&**view),
            (ReferenceKey::View(view), ReferenceKey::Text(text)) => (**view).cmp(&text.as_view()),
            (ReferenceKey::View(view), ReferenceKey::View(other)) => (**view).cmp(&**other),
        }
    }
}
