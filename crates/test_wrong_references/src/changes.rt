//! Promises of references with components changed. `must-fail` has wrong bodies.
ghost use Rattle.std.specs.Option.{option_copied};
ghost use Rattle.std.specs.Prelude.{◌≡◌, MatchResult};
ghost use Rattle.uriparse_text.specs.Pairs as pairs;
ghost use Rattle.uriparse_text.specs.Readings.{Settles};
ghost use Rattle.uriparse_reference.specs.Beside as parts;
ghost use Rattle.uriparse_reference.specs.Change.{ChangesInPlace, WritesChanged, changing};
ghost use Rattle.uriparse_reference.specs.PairEdits.{pairs_of, with_pairs};

use std::alloc::{AllocError, Global};
use uriparse_reference::uri_reference::{
    ChangeError, Changes, ReferenceText, ReferenceView, URIReference,
};

/// Writes the string of a reference with components changed.
pub fn change_into(
    view: &ReferenceView<'_>,
    changes: &Changes<'_>,
    out: &mut [u8],
) -> Result<usize, ChangeError>
    ensures { WritesChanged (changing changes.now view.now.text) result out.old out.new }
{
    view.change_into(changes, out)
}

/// Changes components of a reference that owns its text.
pub fn change(
    text: &mut ReferenceText,
    alloc: Global,
    changes: &Changes<'_>,
) -> Result<(), ChangeError>
    ensures { ChangesInPlace (changing changes.now text.old.text) result text.old text.new }
{
    text.change(alloc, changes)
}

/// Sets the port of a reference.
pub fn set_port(reference: &mut URIReference<'_>, port: Option<u16>) -> Result<(), ChangeError>
    ensures { Settles reference.old reference.new result (parts.with_port reference.old port) }
{
    reference.set_port(port)
}

/// The reference without a user name and a password.
pub fn without_userinfo(reference: URIReference<'_>) -> URIReference<'_>
    ensures { result ≡ parts.without_userinfo reference.entry }
{
    reference.without_userinfo()
}

/// Sets a pair of a reference's query.
pub fn set_pair(
    reference: &mut URIReference<'_>,
    alloc: Global,
    name: &[u8],
    value: Option<&[u8]>,
) -> Result<(), AllocError>
    ensures { MatchResult result (λ _. reference.new ≡ with_pairs reference.old (pairs.with_pair name.now (pairs.encoded_pair (name.now, option_copied value.entry)) (pairs_of reference.old))) (λ _. reference.new ≡ reference.old) }
{
    reference.set_pair(alloc, name, value)
}
