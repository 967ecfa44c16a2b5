//! Comparing and hashing schemes by their canonical spelling: RFC 3986, section 6.2.2.1. Nothing
//! here allocates.
ghost use Rattle.std.specs.Prelude.{◌≡◌, true, fold, bytes_eq};
ghost use Rattle.uriparse_text.specs.Canonical.{canonical_lowered, fed_text};
ghost use Rattle.uriparse_scheme.specs.Grammar.{is_scheme};

use std::hash::Hasher;
use uriparse_text::internal::{Case, feed_text};

/// Whether two schemes differ only in the case of letters.
pub(super) fn same_lowered(left: &[u8], right: &[u8]) -> bool
    requires left { is_scheme left.now ≡ true }
    requires right { is_scheme right.now ≡ true }
    ensures { result ≡ bytes_eq (canonical_lowered left.now) (canonical_lowered right.now) }
{
    left.eq_ignore_ascii_case(right)
}

/// Feeds the scheme in lower case, followed by 0xFF, to the hasher.
pub(super) fn feed_lowered<H: Hasher>(bytes: &[u8], state: &mut H)
    ensures { state.new ≡ fold H.write state.old (fed_text (canonical_lowered bytes.now)) }
{
    feed_text(Case::Lowered, bytes, state);
}
