//! The strings of the components of a reference, and what changes make of them.
ghost use Rattle.std.specs.Prelude.{◌≡◌, is_some};
ghost use Rattle.std.specs.Option.{option_copied, option_map, option_and_then};
ghost use Rattle.uriparse_text.specs.Cuts.{after, before, up_to};
ghost use Rattle.uriparse_path.specs.Faults.{ends_path};
ghost use Rattle.uriparse_text.specs.Bytes.{colon, number_sign, question_mark};
ghost use Rattle.uriparse_authority.specs.Authority.{password_in, username_in, with_empty, password_after};
ghost use Rattle.uriparse_scheme.specs.Cuts.{if_some};
ghost use Rattle.uriparse_reference.specs.Change as spec;
ghost use Rattle.uriparse_reference.specs.Wanted.{wish};

use super::super::read::split_authority;
use super::{Change, ChangeError, Changes};
use std::marker::Model;
use uriparse_authority::internal::{split_port, split_userinfo};
use uriparse_scheme::internal::split_scheme;
use uriparse_text::internal::{split_at_delimiter, without_delimiter};

/// The strings of the components of an authority.
#[derive(Drop)]
pub struct AuthorityStrings<'s> {
    pub username: Option<&'s [u8]>,
    pub password: Option<&'s [u8]>,
    pub host: &'s [u8],
    pub port: Option<&'s [u8]>,
}

impl<'s> Model for AuthorityStrings<'s> {
    ghost use Rattle.std.specs.Option.{option_copied};
    ghost use Rattle.uriparse_reference.specs.Change.{AuthorityStrings};

    ghost Value = { AuthorityStrings };

    ghost view = { λ a. record { username = option_copied a.username; password = option_copied a.password; host = a.host.now; port = option_copied a.port } };
}

/// The strings of the components of a reference.
#[derive(Drop)]
pub struct Strings<'s> {
    pub scheme: Option<&'s [u8]>,
    pub authority: Option<AuthorityStrings<'s>>,
    pub path: &'s [u8],
    pub query: Option<&'s [u8]>,
    pub fragment: Option<&'s [u8]>,
}

impl<'s> Model for Strings<'s> {
    ghost use Rattle.std.specs.Option.{option_copied};
    ghost use Rattle.uriparse_reference.specs.Change.{Strings};

    ghost Value = { Strings };

    ghost view = { λ s. record { scheme = option_copied s.scheme; authority = s.authority; path = s.path.now; query = option_copied s.query; fragment = option_copied s.fragment } };
}

/// The text, or none if it is empty.
fn unless_empty(text: &[u8]) -> Option<&[u8]>
    ensures { option_copied result ≡ if_some text.now }
{
    match text {
        [] => None,
        _ => Some(text),
    }
}

/// The user name and the password of user information.
fn split_password(userinfo: Option<&[u8]>) -> (Option<&[u8]>, Option<&[u8]>)
    ensures username { option_copied result.0 ≡ username_in (option_copied userinfo.entry) }
    ensures password { option_copied result.1 ≡ password_in (option_copied userinfo.entry) }
{
    match userinfo {
        Some(text) => {
            let (username, rest) = split_at_delimiter(text, b':');
            (Some(username), without_delimiter(rest))
        }
        None => (None, None),
    }
}

/// The strings of an authority's components.
fn cut_authority(text: &[u8]) -> AuthorityStrings<'_>
    ensures { result ≡ spec.authority_strings text.now }
{
    let (userinfo, host_and_port) = split_userinfo(text);
    let (username, password) = split_password(userinfo);
    let (host, port) = split_port(host_and_port);
    AuthorityStrings {
        username,
        password,
        host,
        port,
    }
}

/// The strings of an authority's components, if there is one.
fn cut_authority_if(text: Option<&[u8]>) -> Option<AuthorityStrings<'_>>
    ensures { result ≡ option_map spec.authority_strings (option_copied text.entry) }
{
    match text {
        Some(text) => Some(cut_authority(text)),
        None => None,
    }
}

/// The path, and the strings of the query and the fragment, if they are present.
#[tactic(auto, using(crate::proofs::lemmas::reading::CutLemmas::path_cut))]
fn split_end(text: &[u8]) -> (&[u8], Option<&[u8]>, Option<&[u8]>)
    ensures path { result.0.now ≡ up_to ends_path text.now }
    ensures query { option_copied result.1 ≡ after question_mark (before number_sign text.now) }
    ensures fragment { option_copied result.2 ≡ after number_sign text.now }
{
    let (front, fragment) = split_at_delimiter(text, b'#');
    let (path, query) = split_at_delimiter(front, b'?');
    (path, without_delimiter(query), without_delimiter(fragment))
}

/// The strings of a reference's components. No byte is tested.
pub fn cut_reference(text: &[u8]) -> Strings<'_>
    ensures { result ≡ spec.strings text.now }
{
    let cut = split_scheme(text);
    let (authority, end) = split_authority(cut.rest);
    let (path, query, fragment) = split_end(end);
    Strings {
        scheme: unless_empty(cut.scheme),
        authority: cut_authority_if(authority),
        path,
        query,
        fragment,
    }
}

/// The string of a component after a change.
fn changed<'s>(change: Change<'s>, old: Option<&'s [u8]>) -> Option<&'s [u8]>
    ensures { option_copied result ≡ spec.changed (wish change.entry) (option_copied old.entry) }
{
    match change {
        Change::Keep => old,
        Change::Remove => None,
        Change::Set(bytes) => Some(bytes),
    }
}

/// Whether the component is set.
fn is_set(change: Change<'_>) -> bool
    ensures { result ≡ spec.is_set (wish change.entry) }
{
    matches!(change, Change::Set(_))
}

/// Whether a component is set that needs a host beside it.
fn sets_beside_host(changes: &Changes<'_>) -> bool
    ensures { result ≡ spec.sets_beside_host changes.now }
{
    is_set(changes.username) || is_set(changes.password) || is_set(changes.port)
}

/// A password that is kept, if there is a user name.
fn kept_password<'s>(username: Option<&'s [u8]>, password: Option<&'s [u8]>) -> Option<&'s [u8]>
    ensures { option_copied result ≡ password_after (option_copied username.entry) (option_copied password.entry) }
{
    match username {
        Some(_) => password,
        None => None,
    }
}

/// The user name, or an empty one if there is a password alone.
fn username_before<'s>(username: Option<&'s [u8]>, password: Option<&'s [u8]>) -> Option<&'s [u8]>
    ensures { option_copied result ≡ with_empty (option_copied username.entry) (option_copied password.entry) }
{
    match (username, password) {
        (None, Some(_)) => Some(b""),
        _ => username,
    }
}

/// The user name, the password and the port, if there is an authority.
fn beside_host<'s>(
    authority: &Option<AuthorityStrings<'s>>,
) -> (Option<&'s [u8]>, Option<&'s [u8]>, Option<&'s [u8]>)
    ensures username { option_copied result.0 ≡ option_and_then (λ (a : spec.AuthorityStrings). a.username) authority.now }
    ensures password { option_copied result.1 ≡ option_and_then (λ (a : spec.AuthorityStrings). a.password) authority.now }
    ensures port { option_copied result.2 ≡ option_and_then (λ (a : spec.AuthorityStrings). a.port) authority.now }
{
    match authority {
        Some(authority) => (authority.username, authority.password, authority.port),
        None => (None, None, None),
    }
}

/// The host, if there is an authority.
fn host_of<'s>(authority: &Option<AuthorityStrings<'s>>) -> Option<&'s [u8]>
    ensures { option_copied result ≡ option_map (λ (a : spec.AuthorityStrings). a.host) authority.now }
{
    match authority {
        Some(authority) => Some(authority.host),
        None => None,
    }
}

/// The changed authority with this host.
fn authority_with<'s>(
    changes: &Changes<'s>,
    old: &Option<AuthorityStrings<'s>>,
    host: &'s [u8],
) -> AuthorityStrings<'s>
    ensures { result ≡ spec.authority_with changes.now old.now host.now }
{
    let (username, password, port) = beside_host(old);
    let username = changed(changes.username, username);
    let password = changed(changes.password, kept_password(username, password));
    AuthorityStrings {
        username: username_before(username, password),
        password,
        host,
        port: changed(changes.port, port),
    }
}

/// The changed authority, if there is a host.
fn changed_authority<'s>(
    changes: &Changes<'s>,
    old: &Option<AuthorityStrings<'s>>,
) -> Result<Option<AuthorityStrings<'s>>, ChangeError>
    ensures { result ≡ spec.changed_authority changes.now old.now (spec.changed changes.now.host (option_map (λ (a : spec.AuthorityStrings). a.host) old.now)) }
{
    match changed(changes.host, host_of(old)) {
        Some(host) => Ok(Some(authority_with(changes, old, host))),
        None if sets_beside_host(changes) => Err(ChangeError::MissingHost),
        None => Ok(None),
    }
}

/// The changed path, given whether there was an authority and is one.
fn changed_path<'s>(change: Change<'s>, had: bool, has: bool, path: &'s [u8]) -> &'s [u8]
    ensures { result.now ≡ spec.changed_path (wish change.entry) had has path.now }
{
    match change {
        Change::Keep if had && !has && path.is_empty() => b"/",
        Change::Keep => path,
        Change::Remove => b"",
        Change::Set(bytes) => bytes,
    }
}

/// The strings of the components after the changes.
pub fn change_strings<'s>(
    changes: &Changes<'s>,
    old: Strings<'s>,
) -> Result<Strings<'s>, ChangeError>
    ensures { result ≡ spec.changed_strings changes.now old.entry }
{
    let authority = changed_authority(changes, &old.authority)?;
    let path = changed_path(
        changes.path,
        old.authority.is_some(),
        authority.is_some(),
        old.path,
    );
    Ok(Strings {
        scheme: changed(changes.scheme, old.scheme),
        authority,
        path,
        query: changed(changes.query, old.query),
        fragment: changed(changes.fragment, old.fragment),
    })
}
