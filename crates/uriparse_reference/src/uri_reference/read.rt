//! Cutting the text of a reference into its components, and reading these: RFC 3986, sections 3 and
//! 4.
ghost use Rattle.std.specs.Prelude.{◌≡◌, not, drop, length, IfSome, IsOk, is_some, true, false, Ok, Err, MatchOption, MatchResult};
ghost use Rattle.std.specs.Option.{option_copied};
ghost use Rattle.uriparse_text.specs.Readings.{if_present, unless_fault};
ghost use Rattle.uriparse_text.specs.Bytes.{percent};
ghost use Rattle.uriparse_text.specs.Query as query;
ghost use Rattle.uriparse_text.specs.Cuts.{lacks, up_to};
ghost use Rattle.uriparse_path.specs.Path as path;
ghost use Rattle.uriparse_path.specs.Path.{IsPath, has_two_slashes};
ghost use Rattle.uriparse_path.specs.Faults.{ends_path};
ghost use Rattle.uriparse_scheme.specs.Cuts.{if_some};
ghost use Rattle.uriparse_scheme.specs.Registered.{name_of};
ghost use Rattle.uriparse_scheme.specs.Scheme.{is_scheme};
ghost use Rattle.uriparse_reference.specs.Cuts.{cut_authority, tail_fragment, tail_query, without_authority};
ghost use Rattle.uriparse_text.specs.declared.segment.error.PathError.TheVariants.{OutOfMemory};
ghost use Rattle.uriparse_reference.specs.declared.uri_reference.error.URIReferenceError.TheVariants as errors;
ghost use Rattle.uriparse_reference.specs.Reading.{after_reading, front_reading, reading, text_tail};
ghost use Rattle.uriparse_reference.specs.Reference.{Valid, is_noscheme, path_of, path_refusal};
ghost use Rattle.uriparse_reference.specs.View.{AreFound, AreFoundInTail, assembled};

use super::URIReference;
use super::error::URIReferenceError;
use std::alloc::Global;
use uriparse_authority::internal::{ScannedAuthority, find_authority, split_before_path};
use uriparse_path::internal::{counted_path, into_absolute, split_path};
use uriparse_path::path::{Path, PathError};
use uriparse_scheme::internal::{scheme_if, split_scheme};
use uriparse_scheme::scheme::RegisteredScheme;
use uriparse_text::fragment::FragmentKind;
use uriparse_text::internal::{ScannedText, find_text_before, find_text_if, no_text};
use uriparse_text::query::{QueryError, QueryKind};

/// Whether there is a scheme: its text is not empty.
fn is_there(scheme: &[u8]) -> bool
    ensures { result ≡ is_some (if_some scheme.now) }
{
    match scheme {
        [] => false,
        _ => true,
    }
}

/// What follows two leading slashes.
fn after_two_slashes(text: &[u8]) -> Option<&[u8]>
    ensures { MatchOption result (has_two_slashes text.now ≡ false) (λ r. (has_two_slashes text.now ≡ true) × (r.now ≡ drop 2 text.now)) }
{
    match text {
        [b'/', b'/', following @ ..] => Some(following),
        _ => None,
    }
}

/// The authority that follows two leading slashes, and the rest; or none, and the whole text.
pub(super) fn split_authority(text: &[u8]) -> (Option<&[u8]>, &[u8])
    ensures authority { option_copied result.0 ≡ cut_authority text.now }
    ensures rest { result.1.now ≡ without_authority text.now }
{
    match after_two_slashes(text) {
        Some(following) => {
            let (authority, rest) = split_before_path(following);
            (Some(authority), rest)
        }
        None => (None, text),
    }
}

/// Finds the authority after two leading slashes, and what follows it; or none, and the whole text.
#[inline(always)]
fn find_authority_if(
    text: &[u8],
) -> Result<(Option<ScannedAuthority<'_>>, &[u8]), URIReferenceError>
    ensures { MatchResult result (λ r. (front_reading text.now ≡ Ok r.0) × (r.1.now ≡ without_authority text.now)) (λ e. front_reading text.now ≡ Err e) }
{
    match after_two_slashes(text) {
        Some(following) => match find_authority(following) {
            Ok((found, rest)) => Ok((Some(found), rest)),
            Err(error) => Err(URIReferenceError::Authority(error)),
        },
        None => Ok((None, text)),
    }
}

/// Rejects a path that is not allowed, given whether there is a scheme and an authority. With
/// neither, `has_colon_segment` says whether the path's first segment has a colon, so no byte is
/// read for it.
pub(super) fn check_path(
    has_scheme: bool,
    has_authority: bool,
    has_colon_segment: bool,
    path: &[u8],
) -> Result<(), URIReferenceError>
    requires { has_scheme ≡ false → has_authority ≡ false → is_noscheme path.now ≡ not has_colon_segment }
    ensures { result ≡ unless_fault (path_refusal has_scheme has_authority path.now) tt }
{
    match path {
        _ if has_authority => Ok(()),
        [b'/', b'/', ..] => Err(URIReferenceError::AbsolutePathStartsWithTwoSlashes),
        _ if has_scheme || !has_colon_segment => Ok(()),
        _ => Err(URIReferenceError::SchemelessPathStartsWithColonSegment),
    }
}

/// The query that follows a path, if present, and the text of the fragment that follows it.
#[inline(always)]
fn find_query(text: &[u8]) -> Result<(ScannedText<'_, QueryKind>, Option<&[u8]>), QueryError>
    ensures { let read = if_present query.reading (tail_query text.now) in MatchResult result (λ r. (read ≡ Ok r.0) × (option_copied r.1 ≡ tail_fragment text.now)) (λ e. read ≡ Err e) }
{
    match text {
        [b'?', following @ ..] => find_text_before::<QueryKind>(following, b'#'),
        [b'#', following @ ..] => Ok((no_text(), Some(following))),
        _ => Ok((no_text(), None)),
    }
}

/// Finds the query and the fragment that follow a path.
#[inline(always)]
fn find_query_and_fragment(
    text: &[u8],
) -> Result<(ScannedText<'_, QueryKind>, ScannedText<'_, FragmentKind>), URIReferenceError>
    ensures { result ≡ after_reading (tail_query text.now) (tail_fragment text.now) }
{
    match find_query(text) {
        Ok((query, fragment)) => Ok((query, find_text_if::<FragmentKind>(fragment)?)),
        Err(error) => Err(URIReferenceError::Query(error)),
    }
}

/// A path, a query and a fragment, as they were found in a text.
#[derive(Drop)]
pub struct ScannedTail<'t> {
    pub path: &'t [u8],
    /// The number of the path's segments.
    pub count: usize,
    /// 0 only if the path has no escape.
    pub escaped: usize,
    pub query: ScannedText<'t, QueryKind>,
    pub fragment: ScannedText<'t, FragmentKind>,
}

/// Finds the path, the query and the fragment in what follows the scheme and the authority, if
/// present. Does not allocate.
#[inline(always)]
fn find_tail(
    has_scheme: bool,
    has_authority: bool,
    has_colon_segment: bool,
    text: &[u8],
) -> Result<ScannedTail<'_>, URIReferenceError>
    requires { has_scheme ≡ false → has_authority ≡ false → is_noscheme (up_to ends_path text.now) ≡ not has_colon_segment }
    ensures { MatchResult result (λ t. AreFoundInTail has_scheme has_authority text.now t.path.now t.count t.escaped t.query t.fragment) (λ e. text_tail has_scheme has_authority text.now ≡ Err e) }
{
    let front = split_path(text)?;
    check_path(has_scheme, has_authority, has_colon_segment, front.text)?;
    let (query, fragment) = find_query_and_fragment(front.following)?;
    Ok(ScannedTail {
        path: front.text,
        count: front.count,
        escaped: front.escaped,
        query,
        fragment,
    })
}

/// The components of a reference, as slices of its text: plain words, which need no drop.
#[derive(Drop)]
pub struct Pieces<'t> {
    pub scheme: &'t [u8],
    /// The scheme, if it was recognized by its bytes.
    pub known: Option<RegisteredScheme>,
    pub authority: Option<ScannedAuthority<'t>>,
    pub tail: ScannedTail<'t>,
}

impl<'t> Pieces<'t> {
    /// Whether there is a scheme.
    pub fn has_scheme(&self) -> bool
        ensures { result ≡ is_some (if_some self.now.scheme.now) }
    {
        is_there(self.scheme)
    }

    /// The path, made absolute with an authority. Allocates only for more than one segment.
    #[inline(always)]
    pub(super) fn make_path(&self, alloc: Global) -> Result<Path<'t>, URIReferenceError>
        requires path { IsPath self.now.tail.path.now }
        requires count { self.now.tail.count ≡ length (path.pieces self.now.tail.path.now) }
        requires escaped { self.now.tail.escaped ≡ 0 → lacks percent self.now.tail.path.now ≡ true }
        ensures path { MatchResult result (λ p. p ≡ path_of (is_some self.now.authority) self.now.tail.path.now) (λ e. e ≡ errors.Path OutOfMemory) }
        ensures takes_no_memory { self.now.tail.count ≡ 1 → IsOk result }
    {
        let tail = &self.tail;
        match counted_path(alloc, tail.count, tail.escaped, tail.path) {
            Ok(path) => Ok(if self.authority.is_some() {
                into_absolute(path)
            } else {
                path
            }),
            Err(_) => Err(URIReferenceError::Path(PathError::OutOfMemory)),
        }
    }

    /// The reference of these components, which are moved once, to their places: a function between
    /// would move them all again. Its path was made before.
    #[inline(always)]
    pub(super) fn to_reference(&self, path: Path<'t>) -> URIReference<'t>
        requires scheme { IfSome (if_some self.now.scheme.now) (λ s. is_scheme s ≡ true) }
        requires known { IfSome self.now.known (λ s. self.now.scheme.now ≡ name_of s) }
        requires valid { Valid (assembled self.now.scheme.now self.now.authority path self.now.tail.query self.now.tail.fragment) }
        ensures { result ≡ assembled self.now.scheme.now self.now.authority path.entry self.now.tail.query self.now.tail.fragment }
    {
        URIReference {
            scheme: scheme_if(self.scheme, self.known),
            authority: match &self.authority {
                Some(authority) => Some(authority.to_authority()),
                None => None,
            },
            path,
            query: self.tail.query.to_text(),
            fragment: self.tail.fragment.to_text(),
        }
    }
}

/// Finds the components of a reference, or its fault. Does not allocate.
#[inline(always)]
#[tactic(auto, unfolding(crate::specs::Reading::reading))]
pub fn find_pieces(text: &[u8]) -> Result<Pieces<'_>, URIReferenceError>
    ensures { MatchResult result (λ p. AreFound text.now p.scheme.now p.known p.authority p.tail.path.now p.tail.count p.tail.escaped p.tail.query p.tail.fragment) (λ e. reading text.now ≡ Err e) }
{
    let cut = split_scheme(text);
    let (authority, rest) = find_authority_if(cut.rest)?;
    let has_scheme = is_there(cut.scheme);
    let tail = find_tail(has_scheme, authority.is_some(), cut.has_colon_segment, rest)?;
    Ok(Pieces {
        scheme: cut.scheme,
        known: cut.known,
        authority,
        tail,
    })
}
