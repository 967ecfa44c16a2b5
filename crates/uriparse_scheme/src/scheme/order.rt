//! The order of schemes: by the bytes of their canonical spellings. Nothing here allocates.
ghost use Rattle.std.specs.Prelude.{◌≡◌, refl, true};
ghost use Rattle.std.specs.Cmp.{on_po};
ghost use Rattle.std.specs.Cmp.Lexicographic.{on_texts, slice_cmp, texts_po, texts_ties};
ghost use Rattle.std.specs.Ordering.{as_partial_cmp, nat_cmp, on};
ghost use Rattle.uriparse_text.specs.Canonical.{canonical_lowered};
ghost use Rattle.uriparse_scheme.specs.declared.scheme.registered.RegisteredScheme.TheVariants.{Microsoft};
ghost use Rattle.uriparse_scheme.specs.Grammar.{is_scheme};
ghost use Rattle.uriparse_scheme.specs.Registered.{name_of};
ghost use Rattle.uriparse_scheme.specs.Scheme.{canonical_text};

use super::Scheme;
use super::microsoft::MicrosoftScheme;
use super::registered::RegisteredScheme;
use super::unregistered::UnregisteredScheme;
use std::cmp::Ordering;
use uriparse_text::internal::{Case, compare_spelling};

/// Compares two schemes in lower case.
fn compare_lowered(left: &[u8], right: &[u8]) -> Ordering
    requires left { is_scheme left.now ≡ true }
    requires right { is_scheme right.now ≡ true }
    ensures { result ≡ slice_cmp nat_cmp (canonical_lowered left.now) (canonical_lowered right.now) }
{
    compare_spelling(Case::Lowered, left, right)
}

impl<'s> PartialOrd for Scheme<'s> {
    ghost partial_cmp = { as_partial_cmp (on canonical_text (slice_cmp nat_cmp)) };

    ghost laws = { on_po canonical_text texts_po };

    fn partial_cmp(&self, other: &Scheme<'s>) -> Option<Ordering> {
        Some(self.cmp(other))
    }
}

impl<'s> Ord for Scheme<'s> {
    ghost cmp = { on canonical_text (slice_cmp nat_cmp) };

    ghost total = { on_texts canonical_text };

    ghost matches_partial_cmp = { λ s t. refl };

    ghost matches_eq = { λ s t. texts_ties (canonical_text s) (canonical_text t) };

    fn cmp(&self, other: &Scheme<'s>) -> Ordering {
        compare_lowered(self.as_bytes(), other.as_bytes())
    }
}

impl<'s> PartialOrd for UnregisteredScheme<'s> {
    ghost partial_cmp = { as_partial_cmp (on canonical_lowered (slice_cmp nat_cmp)) };

    ghost laws = { on_po canonical_lowered texts_po };

    fn partial_cmp(&self, other: &UnregisteredScheme<'s>) -> Option<Ordering> {
        Some(self.cmp(other))
    }
}

impl<'s> Ord for UnregisteredScheme<'s> {
    ghost cmp = { on canonical_lowered (slice_cmp nat_cmp) };

    ghost total = { on_texts canonical_lowered };

    ghost matches_partial_cmp = { λ s t. refl };

    ghost matches_eq = { λ s t. texts_ties (canonical_lowered s) (canonical_lowered t) };

    fn cmp(&self, other: &UnregisteredScheme<'s>) -> Ordering {
        compare_lowered(self.as_bytes(), other.as_bytes())
    }
}

impl PartialOrd for RegisteredScheme {
    ghost partial_cmp = { as_partial_cmp (on (λ s. canonical_lowered (name_of s)) (slice_cmp nat_cmp)) };

    ghost laws = { on_po (λ s. canonical_lowered (name_of s)) texts_po };

    fn partial_cmp(&self, other: &RegisteredScheme) -> Option<Ordering> {
        Some(self.cmp(other))
    }
}

impl Ord for RegisteredScheme {
    ghost cmp = { on (λ s. canonical_lowered (name_of s)) (slice_cmp nat_cmp) };

    ghost total = { on_texts (λ s. canonical_lowered (name_of s)) };

    ghost matches_partial_cmp = { λ s t. refl };

    ghost matches_eq = { λ s t. texts_ties (canonical_lowered (name_of s)) (canonical_lowered (name_of t)) };

    fn cmp(&self, other: &RegisteredScheme) -> Ordering {
        compare_lowered(self.name().as_bytes(), other.name().as_bytes())
    }
}

impl PartialOrd for MicrosoftScheme {
    ghost partial_cmp = { as_partial_cmp (on (λ s. canonical_lowered (name_of (Microsoft s))) (slice_cmp nat_cmp)) };

    ghost laws = { on_po (λ s. canonical_lowered (name_of (Microsoft s))) texts_po };

    fn partial_cmp(&self, other: &MicrosoftScheme) -> Option<Ordering> {
        Some(self.cmp(other))
    }
}

impl Ord for MicrosoftScheme {
    ghost cmp = { on (λ s. canonical_lowered (name_of (Microsoft s))) (slice_cmp nat_cmp) };

    ghost total = { on_texts (λ s. canonical_lowered (name_of (Microsoft s))) };

    ghost matches_partial_cmp = { λ s t. refl };

    ghost matches_eq = { λ s t. texts_ties (canonical_lowered (name_of (Microsoft s))) (canonical_lowered (name_of (Microsoft t))) };

    fn cmp(&self, other: &MicrosoftScheme) -> Ordering {
        RegisteredScheme::Microsoft(*self).cmp(&RegisteredScheme::Microsoft(*other))
    }
}
