//! Two promises that a caller's own contracts can build on: what is printed reads back, and equal keys
//! stand for equal references. This crate names `uriparse` alone.
ghost use Rattle.std.specs.Prelude.{◌≡◌, ◌↔◌, IfOk, IsTrue};
ghost use Rattle.uriparse.specs.Reference.{ReadsBack, Same};
ghost use Rattle.uriparse.specs.TextKey.{keyed};

use std::alloc::Global;
use uriparse::laws::{one_key, one_reading};
use uriparse::{ReferenceKey, URI, URIError, URIText};

/// Prints a URI, and reads what was printed. The components are the same, unless the host is a name that
/// reads as an address.
pub fn print_and_read(alloc: Global, uri: &URI<'_>) -> Result<URIText, URIError>
    ensures { ReadsBack uri.now → IfOk result (λ v. v.parts ≡ uri.now) }
{
    one_reading();
    match URIText::try_from_string(uri.to_string(alloc)?) {
        Ok(text) => Ok(text),
        Err(rejected) => Err(rejected.error),
    }
}

/// Whether two keys of a map stand for equal references.
pub fn is_same_key(key: &ReferenceKey<'_>, other: &ReferenceKey<'_>) -> bool
    ensures { IsTrue result ↔ Same (keyed key.now).parts (keyed other.now).parts }
{
    one_key();
    key == other
}
