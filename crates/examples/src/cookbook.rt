//! Small jobs, as the page on calling shows them.

use std::alloc::{AllocError, Global};
use std::collections::HashSet;
use std::fmt::Write;
use uriparse::file::{self, FileError};
use uriparse::{Query, ReferenceKey, ReferenceView, URI, URIError, URIReferenceError};

/// Adds a link to those that were seen. Returns whether it is new, however it is spelled.
///
/// ```
/// let mut seen = HashSet::new(alloc);
/// assert!(see(alloc, &mut seen, "HTTP://h/%7ea")?);
/// assert!(!see(alloc, &mut seen, "http://H/~a")?);
/// ```
pub fn see(
    alloc: Global,
    seen: &mut HashSet<ReferenceKey<'static>>,
    link: &str,
) -> Result<bool, URIReferenceError> {
    let view = ReferenceView::try_from_str(link)?;
    if seen.contains(&ReferenceKey::View(&view)) {
        return Ok(false);
    }
    seen.insert(ReferenceKey::Text(view.to_text(alloc)?))?;
    Ok(true)
}

/// Removes the pairs of a URI's query by which links are tracked.
///
/// ```
/// let mut uri = URI::try_from_str(alloc, "http://h/a?utm_source=x&b=c&%67clid=1")?;
/// strip_tracking(alloc, &mut uri)?;
/// assert_eq!(uri.to_string(alloc)?.as_str(), "http://h/a?b=c");
/// ```
pub fn strip_tracking(alloc: Global, uri: &mut URI<'_>) -> Result<(), URIError> {
    let names = Query::try_from_str("utm_*&gclid")?;
    Ok(uri.remove_pairs_named(alloc, &names)?)
}

/// Sets a URI's query to one pair, and removes its fragment. The words are data: all that a query can't
/// have, and `&`, `=`, `+` and `*`, is percent-encoded.
///
/// ```
/// let mut uri = URI::try_from_str(alloc, "http://h/find?old#top")?;
/// search(alloc, &mut uri, "a&b")?;
/// assert_eq!(uri.to_string(alloc)?.as_str(), "http://h/find?q=a%26b");
/// ```
pub fn search(alloc: Global, uri: &mut URI<'_>, words: &str) -> Result<(), URIError> {
    let query = Query::from_pairs(alloc, &[(b"q", Some(words.as_bytes()))])?;
    uri.set_query(Some(query))?;
    uri.set_fragment(None)
}

/// The value of the first pair of this name, both decoded as a form's. A pair without `=` has no value.
///
/// ```
/// let query = Query::try_from_str("a=1&%62=x+y%21")?;
/// assert_eq!(value(alloc, &query, "b")?.unwrap().as_slice(), b"x y!".as_slice());
/// ```
pub fn value(alloc: Global, query: &Query<'_>, name: &str) -> Result<Option<Vec<u8>>, AllocError> {
    for (key, value) in query.pairs() {
        if key.decode_form(alloc)?.as_slice() == name.as_bytes() {
            return match value {
                Some(value) => Ok(Some(value.decode_form(alloc)?)),
                None => Ok(None),
            };
        }
    }
    Ok(None)
}

/// The input, a caret under the first wrong byte, and the error, or `None` if it is a URI. The caret
/// counts bytes, so it is right for ASCII.
///
/// ```
/// assert!(explain(alloc, "http://h/a")?.is_none());
/// let lines = explain(alloc, "http://h:8o/")?.unwrap();
/// assert_eq!(lines.as_str(), "http://h:8o/\n          ^ invalid port character");
/// ```
pub fn explain(alloc: Global, text: &str) -> Result<Option<String>, AllocError> {
    let Some((offset, error)) = URI::first_fault(text.as_bytes()) else {
        return Ok(None);
    };
    let mut lines = String::new(alloc);
    write!(lines, "{text}\n")?;
    for _ in 0..offset {
        lines.push(' ')?;
    }
    write!(lines, "^ {error}")?;
    Ok(Some(lines))
}

/// The URI of a file's path, as a string.
///
/// ```
/// let link = link_to(alloc, b"/tmp/a b%.txt")?;
/// assert_eq!(link.as_str(), "file:///tmp/a%20b%25.txt");
/// ```
pub fn link_to(alloc: Global, path: &[u8]) -> Result<String, FileError> {
    Ok(file::from_path(alloc, path)?.to_string(alloc)?)
}

/// The path of the file that a URI names.
///
/// ```
/// let uri = URI::try_from_str(alloc, "file://localhost/a%20b")?;
/// assert_eq!(path_of(alloc, &uri)?.as_slice(), b"/a b".as_slice());
/// ```
pub fn path_of(alloc: Global, uri: &URI<'_>) -> Result<Vec<u8>, FileError> {
    file::to_path(alloc, uri)
}
