//! The order of the texts of paths: by the bytes of their canonical spellings.
ghost use Rattle.std.specs.Prelude.{◌≡◌};
ghost use Rattle.std.specs.Cmp.Lexicographic.{slice_cmp};
ghost use Rattle.std.specs.Ordering.{nat_cmp};
ghost use Rattle.uriparse_text.specs.Canonical.{canonical};
ghost use Rattle.uriparse_path.specs.Path.{IsPath};

use std::cmp::Ordering;
use uriparse_text::internal::{Case, compare_spelling};

/// Compares the canonical spellings of the texts of two paths.
#[tactic(auto, using(crate::proofs::lemmas::text::TextWalkLemmas::formed_path))]
pub fn compare_path_texts(left: &[u8], right: &[u8]) -> Ordering
    requires left { IsPath left.now }
    requires right { IsPath right.now }
    ensures { result ≡ slice_cmp nat_cmp (canonical left.now) (canonical right.now) }
{
    compare_spelling(Case::Kept, left, right)
}
