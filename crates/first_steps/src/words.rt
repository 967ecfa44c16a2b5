//! The words of the library's contracts that callers cite, in a crate that names `uriparse` alone.
ghost use Rattle.uriparse.specs.Reference.{Parts, Spells, Valid, Same, print, host_of};
ghost use Rattle.uriparse.specs.Target.{target};
ghost use Rattle.uriparse.specs.Normal.{normal};
ghost use Rattle.uriparse.specs.Key.{key};
ghost use Rattle.uriparse.specs.Edits.{edited, of_parts, Run};
ghost use Rattle.uriparse.specs.Authority as authority;
ghost use Rattle.uriparse.specs.Path as path;
ghost use Rattle.uriparse.specs.Scheme as scheme;
ghost use Rattle.std.specs.Prelude.{◌≡◌, IfOk, Ok, Some};
ghost use Rattle.std.specs.Option.{option_copied};
ghost use Rattle.uriparse.specs.Readings.{IsUnless, Settles};
ghost use Rattle.uriparse.specs.Kinds.{IsOfKind, fault_of};
ghost use Rattle.uriparse.specs.Uri.{base, map_error};
ghost use Rattle.uriparse.specs.declared.uri.error.URIError.TheVariants as uris;
ghost use Rattle.uriparse.specs.PathError.TheVariants.{OutOfMemory};
ghost use Rattle.std.specs.Prelude.{true};

use std::alloc::Global;
use uriparse::{URI, URIError};

/// Reads a URI.
pub fn read(alloc: Global, text: &str) -> Result<URI<'_>, URIError>
    ensures found { IfOk result (λ u. Spells text.now u) }
    ensures only { (u : Parts) → Spells text.now u → IsOfKind true u → IsUnless (uris.Path OutOfMemory) result (Ok u) }
{
    URI::try_from_str(alloc, text)
}
