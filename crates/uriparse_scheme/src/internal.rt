//! What the crates above build on. Not for users.
ghost use Rattle.std.specs.Prelude.{◌≡◌, IfOk, IsOk};
ghost use Rattle.std.specs.Option.{option_map, option_or};
ghost use Rattle.uriparse_scheme.specs.Normal.{canonical_scheme};

use crate::scheme::Scheme;
pub use crate::scheme::split::{SchemeSplit, scheme_if, split_scheme};
use std::alloc::{AllocError, Global};

/// A copy of the scheme in canonical spelling, if it is present and not canonical. Allocates only
/// then.
pub fn canonical_copy(
    alloc: Global,
    scheme: &Option<Scheme<'_>>,
) -> Result<Option<Scheme<'static>>, AllocError>
    ensures copy { IfOk result (λ copy. option_or copy scheme.now ≡ option_map canonical_scheme scheme.now) }
    ensures takes_no_memory { option_map canonical_scheme scheme.now ≡ scheme.now → IsOk result }
{
    match scheme {
        Some(Scheme::Unregistered(scheme)) => {
            if scheme.is_normalized() {
                return Ok(None);
            }
            Ok(Some(Scheme::Unregistered(scheme.to_normalized(alloc)?)))
        }
        _ => Ok(None),
    }
}

/// Replaces the scheme by its copy, if there is one. Does not allocate.
pub fn put_copy<'s>(scheme: &mut Option<Scheme<'s>>, copy: Option<Scheme<'s>>)
    ensures { scheme.new ≡ option_or copy.entry scheme.old }
{
    if copy.is_some() {
        *scheme = copy;
    }
}
