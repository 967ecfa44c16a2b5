//! The text of a reference: RFC 3986, section 5.3.
ghost use Rattle.std.specs.Prelude.{◌≡◌, ◌≤◌, ◌⊎◌, ◌++◌, [], length, slice_index, unwrap_or};
ghost use Rattle.std.specs.Option.{option_copied, option_map};
ghost use Rattle.std.specs.Fmt.{WritesOnOk, WritesStyledOnOk};
ghost use Rattle.uriparse_text.specs.Bytes.{colon, number_sign, question_mark};
ghost use Rattle.uriparse_text.specs.Cuts.{ahead, following};
ghost use Rattle.uriparse_authority.specs.Authority as authorities;
ghost use Rattle.uriparse_path.specs.Path as paths;
ghost use Rattle.uriparse_scheme.specs.Scheme as schemes;
ghost use Rattle.uriparse_reference.specs.Reference.{after_slashes};

use std::fmt;
use uriparse_authority::authority::Authority;
use uriparse_authority::internal::most_authority_bytes;
use uriparse_path::path::Path;
use uriparse_scheme::scheme::Scheme;
use uriparse_text::fragment::Fragment;
use uriparse_text::query::Query;

/// The number of bytes of the scheme, 0 without one.
pub(super) fn len_of_scheme(scheme: &Option<Scheme<'_>>) -> usize
    ensures { result ≡ length (unwrap_or (option_map schemes.text scheme.now) []) }
{
    match scheme {
        Some(scheme) => scheme.as_str().len(),
        None => 0,
    }
}

/// An upper bound for the number of bytes of the authority's text, 0 without one, or `usize::MAX`.
pub(super) fn most_of_authority(authority: &Option<Authority<'_>>) -> usize
    ensures { length (unwrap_or (option_map authorities.print authority.now) []) ≤ result ⊎ result ≡ usize.MAX }
{
    match authority {
        Some(authority) => most_authority_bytes(authority),
        None => 0,
    }
}

/// Writes the scheme, if there is one, and its colon.
pub(super) fn write_scheme<W: fmt::Write>(
    scheme: &Option<Scheme<'_>>,
    f: &mut fmt::Formatter<W>,
) -> fmt::Result
    ensures writes { WritesOnOk W.write_str_gives f.old result (ahead colon (option_map schemes.text scheme.now)) f.new }
    ensures styled { WritesStyledOnOk W.write_str_gives f.old result (ahead colon (option_map schemes.text scheme.now)) f.new }
{
    if let Some(scheme) = scheme {
        f.write_str(scheme.as_str())?;
        f.write_str(":")?;
    }
    Ok(())
}

/// Writes two slashes and the authority, if there is one.
pub(super) fn write_authority<W: fmt::Write>(
    authority: &Option<Authority<'_>>,
    f: &mut fmt::Formatter<W>,
) -> fmt::Result
    ensures writes { WritesOnOk W.write_str_gives f.old result (after_slashes (option_map authorities.print authority.now)) f.new }
    ensures styled { WritesStyledOnOk W.write_str_gives f.old result (after_slashes (option_map authorities.print authority.now)) f.new }
{
    if let Some(authority) = authority {
        f.write_str("//")?;
        fmt::Display::fmt(authority, f)?;
    }
    Ok(())
}

/// Writes a delimiter and the component that follows it, if there is one.
fn write_after<W: fmt::Write>(
    mark: &str,
    part: Option<&str>,
    f: &mut fmt::Formatter<W>,
) -> fmt::Result
    requires { length mark.now ≡ 1 }
    ensures writes { WritesOnOk W.write_str_gives f.old result (following (slice_index mark.now 0) (option_copied part.entry)) f.new }
    ensures styled { WritesStyledOnOk W.write_str_gives f.old result (following (slice_index mark.now 0) (option_copied part.entry)) f.new }
{
    if let Some(text) = part {
        f.write_str(mark)?;
        f.write_str(text)?;
    }
    Ok(())
}

/// Writes the path, and the query and the fragment, if there are any, after their delimiters.
pub(super) fn write_back<W: fmt::Write>(
    path: &Path<'_>,
    query: &Option<Query<'_>>,
    fragment: &Option<Fragment<'_>>,
    f: &mut fmt::Formatter<W>,
) -> fmt::Result
    ensures writes { WritesOnOk W.write_str_gives f.old result (paths.text path.now ++ (following question_mark query.now ++ following number_sign fragment.now)) f.new }
    ensures styled { WritesStyledOnOk W.write_str_gives f.old result (paths.text path.now ++ (following question_mark query.now ++ following number_sign fragment.now)) f.new }
{
    fmt::Display::fmt(path, f)?;
    write_after("?", query.as_ref().map(Query::as_str), f)?;
    write_after("#", fragment.as_ref().map(Fragment::as_str), f)
}
