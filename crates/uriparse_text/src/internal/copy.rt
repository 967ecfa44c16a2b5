//! Copies of components that may be absent: borrowed ones, owned ones, and canonical ones, all of
//! which are made before any is put in place.
ghost use Rattle.std.specs.Prelude.{◌≡◌, IfOk, IsOk, bytes_eq};
ghost use Rattle.std.specs.Option.{option_eq, option_copied, option_map, option_or};
ghost use Rattle.uriparse_text.specs.Canonical.{canonical_in};

use super::text::{Text, TextKind, normalized_text};
use std::alloc::{AllocError, Global};

/// A copy that borrows the text, if present. Does not allocate.
pub fn borrowed_text<'r, K: TextKind>(text: Option<&'r Text<'_, K>>) -> Option<Text<'r, K>>
    ensures { result ≡ option_copied text.entry }
{
    match text {
        Some(text) => Some(text.as_borrowed()),
        None => None,
    }
}

/// The text, if present, owned. Borrowed bytes are copied, which allocates; if memory runs out, the
/// text is dropped.
pub fn owned_text<K: TextKind>(
    alloc: Global,
    text: Option<Text<'_, K>>,
) -> Result<Option<Text<'static, K>>, AllocError>
    ensures { IfOk result (λ t. t ≡ text.entry) }
{
    match text {
        Some(text) => Ok(Some(text.into_owned(alloc)?)),
        None => Ok(None),
    }
}

/// A canonical copy of a component that is present and isn't canonical, else none. Allocates only
/// for such a component.
pub fn canonical_copy<K: TextKind>(
    alloc: Global,
    part: &Option<Text<'_, K>>,
) -> Result<Option<Text<'static, K>>, AllocError>
    ensures copy { IfOk result (λ copy. option_or copy part.now ≡ option_map (canonical_in K.case) part.now) }
    ensures takes_no_memory { option_map (canonical_in K.case) part.now ≡ part.now → IsOk result }
{
    match part {
        Some(text) => {
            if text.is_normalized() {
                return Ok(None);
            }
            Ok(Some(normalized_text(alloc, text)?))
        }
        None => Ok(None),
    }
}

/// Puts a copy, if there is one, in the component's place. Does not allocate.
pub fn put_copy<'t, K: TextKind>(part: &mut Option<Text<'t, K>>, copy: Option<Text<'t, K>>)
    ensures { part.new ≡ option_or copy.entry part.old }
{
    if copy.is_some() {
        *part = copy;
    }
}

/// Whether a component is absent or canonical. Does not allocate.
pub fn is_canonical_part<K: TextKind>(part: &Option<Text<'_, K>>) -> bool
    ensures { result ≡ option_eq bytes_eq (option_map (canonical_in K.case) part.now) part.now }
{
    match part {
        Some(text) => text.is_normalized(),
        None => true,
    }
}
