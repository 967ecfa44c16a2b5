//! File URIs and the paths that they name on POSIX systems: RFC 8089.
ghost use Rattle.std.specs.Prelude.{◌≡◌, ◌⊎◌, ◌++◌, ◌∷◌, ℕ, List, None, Some, Ok, Err, IfErr, IfOk, OnOk, flat_map};
ghost use Rattle.std.specs.Option.{option_copied};
ghost use Rattle.uriparse_text.specs.Bytes.{slash};
ghost use Rattle.uriparse_text.specs.Coding.{decoded};
ghost use Rattle.uriparse_text.specs.Readings.{IsUnless, unless_fault};
ghost use Rattle.uriparse_text.specs.declared.segment.error.PathError.TheVariants.{OutOfMemory};
ghost use Rattle.uriparse.specs.declared.file.error.FileError.TheVariants as errors;
ghost use Rattle.uriparse.specs.File as spec;

use crate::uri::URI;
use std::alloc::{AllocError, Global};
use uriparse_authority::authority::{Authority, Host, RegisteredName};
use uriparse_path::path::{Path, Segment};
use uriparse_scheme::scheme::Scheme;
use uriparse_text::internal::{Held, split_at_delimiter, without_delimiter};

mod error;

pub use error::FileError;

/// The segments for what stands between the slashes of a path, each after a slash. `path` is without
/// its first slash.
fn segments_text(alloc: Global, path: &[u8]) -> Result<Vec<u8>, AllocError>
    ensures { IfOk result (λ v. spec.AreWritten path.now v.items) }
{
    let mut text = Vec::new(alloc);
    let mut rest = Some(path);
    while let Some(left) = rest {
        let (name, following) = split_at_delimiter(left, b'/');
        rest = without_delimiter(following);
        let segment = Held(Segment::encode(alloc, name)?);
        text.push(b'/')?;
        text.extend_from_slice(segment.0.as_bytes())?;
    }
    Ok(text)
}

/// The URI of a path, with an empty host.
fn local_uri(path: Path<'static>) -> URI<'static>
    ensures { result ≡ spec.local_uri path.entry.segments }
{
    let authority = Authority::try_from_bytes(b"").unwrap();
    URI::from_parts(Scheme::File, Some(authority), path, None, None).unwrap()
}

/// The URI of a file's path: `file://` and the path, in which each byte that a segment can't have
/// becomes an escape, `%` too. RFC 8089, section 2 and appendix B: the host is empty, so `/a/b c`
/// has the URI `file:///a/b%20c`.
///
/// The path is the bytes of an absolute path of a POSIX system, in any encoding or none. It is not
/// changed: empty names (`//`, a last `/`), `.` and `..` stay, so [`to_path`] returns these bytes.
///
/// Fails with [`NotAbsolute`](FileError::NotAbsolute) if no slash begins the path, else with
/// [`ContainsNul`](FileError::ContainsNul) for a NUL byte, else with [`Path`](FileError::Path) of
/// [`ExceededMaximumLength`](uriparse_path::path::PathError::ExceededMaximumLength) for more names
/// than [`MAX_SEGMENTS`](uriparse_path::path::MAX_SEGMENTS), or of
/// [`OutOfMemory`](uriparse_path::path::PathError::OutOfMemory). Allocates the text, the list of
/// segments and each segment.
///
/// ```
/// let uri = from_path(alloc, b"/tmp/a b%.txt")?;
/// assert_eq!(uri.to_string(alloc)?.as_str(), "file:///tmp/a%20b%25.txt");
/// ```
pub fn from_path(alloc: Global, path: &[u8]) -> Result<URI<'static>, FileError>
    // The URI of the path, or why it has none.
    ensures answer { IsUnless (errors.Path OutOfMemory) result (spec.uri_of_path path.now) }

    // A path that is no file's is rejected even if memory has run out.
    ensures always { (e : FileError) → spec.bytes_fault path.now ≡ Some e → result ≡ Err e }

    // It names the path again.
    ensures back { IfOk result (λ u. spec.path_of_uri u ≡ Ok path.now) }
{
    let Some((b'/', rest)) = path.split_first() else {
        return Err(FileError::NotAbsolute);
    };
    if rest.contains(&0) {
        return Err(FileError::ContainsNul);
    }
    let text = segments_text(alloc, rest)?;
    let path = Path::try_from_bytes(alloc, &text)?;
    Ok(local_uri(path.into_owned(alloc)?))
}

/// Whether the scheme is `file`, in any case.
fn is_file(scheme: &Scheme<'_>) -> bool
    ensures { result ≡ spec.is_file (Some scheme.now) }
{
    scheme.eq_str("file")
}

/// Whether the name is empty or `localhost`, in any case and spelling.
fn is_local_name(name: &RegisteredName<'_>) -> bool
    ensures { result ≡ spec.is_local_name name.now }
{
    name.eq_str("") || name.eq_str("localhost")
}

/// Whether the host is this machine: there is none, or it is empty or `localhost`.
fn is_local(host: Option<&Host<'_>>) -> bool
    ensures { result ≡ spec.is_local (option_copied host.entry) }
{
    match host {
        None => true,
        Some(Host::RegisteredName(name)) => is_local_name(name),
        Some(_) => false,
    }
}

/// Checks the components around the path, and that the path is absolute.
fn check_parts(uri: &URI<'_>) -> Result<(), FileError>
    ensures { result ≡ unless_fault (spec.parts_fault uri.now) tt }
{
    if !is_file(uri.scheme()) {
        Err(FileError::NotFile)
    } else if uri.has_username() {
        Err(FileError::HasUsername)
    } else if !is_local(uri.host()) {
        Err(FileError::NotLocal)
    } else if uri.has_port() {
        Err(FileError::HasPort)
    } else if !uri.path().is_absolute() {
        Err(FileError::NotAbsolute)
    } else if uri.has_query() {
        Err(FileError::HasQuery)
    } else if uri.has_fragment() {
        Err(FileError::HasFragment)
    } else {
        Ok(())
    }
}

/// Appends a slash and the bytes that the segment stands for, if they are a file's name.
fn push_name(alloc: Global, path: &mut Vec<u8>, segment: &Segment<'_>) -> Result<(), FileError>
    ensures name { OnOk result (path.new.items ≡ path.old.items ++ slash ∷ decoded segment.now) }
    ensures none { OnOk result (spec.name_fault (decoded segment.now) ≡ None) }
    ensures fault { IfErr result (λ e. (spec.name_fault (decoded segment.now) ≡ Some e) ⊎ (e ≡ errors.Path OutOfMemory)) }
{
    let name = segment.decode(alloc)?;
    if name.contains(&b'/') {
        return Err(FileError::EscapedSlash);
    }
    if name.contains(&0) {
        return Err(FileError::ContainsNul);
    }
    path.push(b'/')?;
    path.extend_from_slice(&name)?;
    Ok(())
}

/// The path of the file that a URI names on this machine, as the bytes of a POSIX system: the bytes
/// that each segment stands for, each after a slash. RFC 8089, sections 2 and 3. Dot segments stay.
/// Paths that this RFC's grammar has none of are accepted: the empty one of `file://`, which is `/`,
/// and those that begin with an empty segment, as `file:////a//`. A port of no digits, as in
/// `file://:/a`, is no port; an empty user name, as in `file://@/a`, is one.
///
/// The scheme is `file` in any case, and the host absent, empty or `localhost`. Fails with the first
/// of [`NotFile`](FileError::NotFile), [`HasUsername`](FileError::HasUsername),
/// [`NotLocal`](FileError::NotLocal), [`HasPort`](FileError::HasPort),
/// [`NotAbsolute`](FileError::NotAbsolute), [`HasQuery`](FileError::HasQuery) and
/// [`HasFragment`](FileError::HasFragment) that applies, even if memory has run out; else at the first
/// segment with a `%2F` as [`EscapedSlash`](FileError::EscapedSlash) or with a `%00` as
/// [`ContainsNul`](FileError::ContainsNul); or with [`Path`](FileError::Path) of
/// [`OutOfMemory`](uriparse_path::path::PathError::OutOfMemory). Allocates the path, and each name
/// for a while.
///
/// ```
/// let uri = URI::try_from_str(alloc, "file://localhost/tmp/a%20b")?;
/// assert_eq!(to_path(alloc, &uri)?.as_slice(), b"/tmp/a b".as_slice());
/// ```
pub fn to_path(alloc: Global, uri: &URI<'_>) -> Result<Vec<u8>, FileError>
    // The path that the URI names, or why it names none.
    ensures path { IfOk result (λ v. spec.path_of_uri uri.now ≡ Ok v.items) }
    ensures fault { IfErr result (λ e. (spec.path_of_uri uri.now ≡ Err e) ⊎ (e ≡ errors.Path OutOfMemory)) }

    // A fault outside of the segments is returned even if memory has run out.
    ensures always { (e : FileError) → spec.parts_fault uri.now ≡ Some e → result ≡ Err e }
{
    check_parts(uri)?;
    let mut path = Vec::new(alloc);
    for segment in uri.path().segments() {
        push_name(alloc, &mut path, segment)?;
    }
    Ok(path)
}
