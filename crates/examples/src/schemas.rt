//! A store of JSON Schemas: which schema a `$ref` names.
ghost use Rattle.examples.specs.Schemas.{IsLookup};
ghost use Rattle.uriparse.specs.Uri.{base};

use uriparse::URI;

/// The index of the first schema that is known by this URI without its fragment, which names a
/// place in the schema: `#/definitions/a` and the like. A URI that differs only by
/// percent-encoding of unreserved characters, such as `%7E` for `~`, or by the case of letters where
/// case doesn't count, is found too.
///
/// The schemas are identified by their URIs, which have no fragments. Does not allocate.
///
/// ```
/// let mut schemas = Vec::new(alloc);
/// schemas.push(URI::try_from_str(alloc, "http://a/%7Es.json")?)?;
/// let known = URI::try_from_str(alloc, "HTTP://A/~s.json#/definitions/x")?;
/// let unknown = URI::try_from_str(alloc, "http://a/t.json")?;
/// assert!(look_up(&schemas, known) == Some(0) && look_up(&schemas, unknown).is_none());
/// ```
pub fn look_up(schemas: &[URI<'_>], reference: URI<'_>) -> Option<usize>
    ensures { IsLookup schemas.now (base reference.entry) result }
{
    let wanted = reference.into_base_uri();
    first_equal(schemas, &wanted)
}

/// The index of the first URI that equals this one.
fn first_equal(uris: &[URI<'_>], wanted: &URI<'_>) -> Option<usize>
    ensures { IsLookup uris.now wanted.now result }
{
    for (index, uri) in uris.iter().enumerate() {
        if uri == wanted {
            return Some(index);
        }
    }
    None
}
