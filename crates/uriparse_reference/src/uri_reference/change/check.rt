//! Reading each component of a changed reference by itself.
ghost use Rattle.std.specs.Prelude.{◌≡◌, Err, IsOk, MatchResult, Ok, is_some};
ghost use Rattle.std.specs.Option.{option_copied, option_map};
ghost use Rattle.uriparse_text.specs.Readings.{if_present, of_piece, unless_fault};
ghost use Rattle.uriparse_scheme.specs.Scheme as scheme;
ghost use Rattle.uriparse_reference.specs.Reference.{Parts, Spells, is_noscheme, path_of};
ghost use Rattle.uriparse_reference.specs.Change as spec;

use super::super::error::URIReferenceError;
use super::super::read::check_path;
use super::strings::{AuthorityStrings, Strings, change_strings, cut_reference};
use super::{ChangeError, Changes};
use uriparse_authority::authority::AuthorityError;
use uriparse_authority::internal::check_pieces;
use uriparse_path::internal::split_path;
use uriparse_path::path::PathError;
use uriparse_scheme::scheme::{Scheme, SchemeError};
use uriparse_text::fragment::FragmentKind;
use uriparse_text::internal::{find_text_if, split_at_delimiter};
use uriparse_text::query::QueryKind;

/// Reads the scheme, if there is one.
fn check_scheme(text: Option<&[u8]>) -> Result<(), SchemeError>
    ensures { let read = if_present scheme.reading (option_copied text.entry) in MatchResult result (λ _. read ≡ Ok (option_map scheme.named (option_copied text.entry))) (λ e. read ≡ Err e) }
{
    match text {
        Some(bytes) => match Scheme::try_from_bytes(bytes) {
            Ok(_) => Ok(()),
            Err(error) => Err(error),
        },
        None => Ok(()),
    }
}

/// Reads the components of an authority, if there is one.
fn check_authority(strings: &Option<AuthorityStrings<'_>>) -> Result<(), AuthorityError>
    ensures { MatchResult result (λ _. IsOk (spec.authority_if strings.now)) (λ e. spec.authority_if strings.now ≡ Err e) }
{
    match strings {
        Some(a) => check_pieces(a.username, a.password, a.host, a.port),
        None => Ok(()),
    }
}

/// Whether the first segment lacks a colon.
fn lacks_colon(path: &[u8]) -> bool
    ensures { result ≡ is_noscheme path.now }
{
    let (segment, _) = split_at_delimiter(path, b'/');
    segment.iter().all(|b| *b != b':')
}

/// Reads a path, which is the whole text.
fn check_path_text(path: &[u8]) -> Result<(), PathError>
    ensures { result ≡ unless_fault (spec.path_fault path.now) tt }
{
    let cut = split_path(path)?;
    match cut.following {
        [] => Ok(()),
        _ => Err(PathError::InvalidCharacter),
    }
}

/// Reads a path that follows a scheme and an authority or not.
fn check_whole_path(
    has_scheme: bool,
    has_authority: bool,
    path: &[u8],
) -> Result<(), URIReferenceError>
    ensures { let read = spec.path_reading has_scheme has_authority path.now in MatchResult result (λ _. read ≡ Ok (path_of has_authority path.now)) (λ e. read ≡ Err e) }
{
    check_path_text(path)?;
    check_path(has_scheme, has_authority, !lacks_colon(path), path)
}

/// Reads each component by itself, and tests whether the path may follow the others.
fn check_strings(strings: &Strings<'_>) -> Result<(), URIReferenceError>
    ensures { MatchResult result (λ _. IsOk (spec.strings_reading strings.now)) (λ e. spec.strings_reading strings.now ≡ Err e) }
{
    check_scheme(strings.scheme)?;
    check_authority(&strings.authority)?;
    let has_authority = strings.authority.is_some();
    check_whole_path(strings.scheme.is_some(), has_authority, strings.path)?;
    let _query = find_text_if::<QueryKind>(strings.query)?;
    let _fragment = find_text_if::<FragmentKind>(strings.fragment)?;
    Ok(())
}

/// The strings of the components of this text, which is a reference, after the changes. They make a
/// reference.
pub fn change<'s>(text: &'s [u8], changes: &Changes<'s>) -> Result<Strings<'s>, ChangeError>
    ensures { MatchResult result (λ s. (p : Parts) × (spec.changing changes.now text.now ≡ Ok (record { text = spec.whole s; parts = p })) × Spells (spec.whole s) p) (λ e. spec.changing changes.now text.now ≡ Err e) }
{
    let strings = change_strings(changes, cut_reference(text))?;
    match check_strings(&strings) {
        Ok(()) => Ok(strings),
        Err(error) => Err(ChangeError::Reference(error)),
    }
}
