//! Where the components of a reference begin and end in its text.
ghost use Rattle.std.specs.Prelude.{◌≡◌, ℕ, ◌+◌, ◌<◌, ◌^◌, [], List, Option, Some, length, unwrap_or};
ghost use Rattle.std.specs.Option.{option_copied};
ghost use Rattle.uriparse_authority.specs.Authority as authority;
ghost use Rattle.uriparse_reference.specs.Reference.{after_slashes};
ghost use Rattle.uriparse_reference.specs.Cuts.{authority_text, fragment_text, if_some, path_text, query_text, scheme_text};
ghost use Rattle.uriparse_ffi.specs.Places.{AreInAuthority, ArePlaces, host_number, port_number};
ghost use Rattle.uriparse_ffi.specs.Spans.{span};

use crate::span::{UriSpan, delimited_len, offset_after, place};
use uriparse::{Text, TextKind};
use uriparse_authority::internal::{ScannedAuthority, split_port, split_userinfo};
use uriparse_reference::internal::Pieces;
use uriparse_text::internal::{split_at_delimiter, without_delimiter};

/// Where the components of an authority begin and end.
#[derive(Clone, Copy)]
pub struct InAuthority {
    pub username: UriSpan,
    pub password: UriSpan,
    pub host: UriSpan,
    pub port: UriSpan,
}

/// Where the components of a reference begin and end, the kind of its host and the number of its
/// port.
#[repr(C)]
#[derive(Clone, Copy)]
pub struct UriParts {
    pub scheme: UriSpan,
    pub authority: UriSpan,
    pub username: UriSpan,
    pub password: UriSpan,
    pub host: UriSpan,
    pub port: UriSpan,
    pub path: UriSpan,
    pub query: UriSpan,
    pub fragment: UriSpan,
    pub host_kind: u32,
    pub port_number: u32,
}

/// The spans of a host and a port, in a text that begins there.
fn host_places(at: usize, text: &[u8]) -> (UriSpan, UriSpan)
    requires { at + length text.now < 2 ^ 64 }
    ensures host { result.0 ≡ span at (Some (authority.cut_host text.now)) }
    ensures port { result.1 ≡ span (result.0.end + 1) (authority.cut_port text.now) }
{
    let (host, port) = split_port(text);
    let host = place(at, Some(host));
    (host, offset_after(host.end, port))
}

/// The spans of a user name and a password, in user information that begins there.
fn user_places(at: usize, text: Option<&[u8]>) -> (UriSpan, UriSpan)
    requires { at + length (unwrap_or (option_copied text) []) < 2 ^ 64 }
    ensures username { result.0 ≡ span at (authority.username_in (option_copied text.entry)) }
    ensures password { result.1 ≡ span (result.0.end + 1) (authority.password_in (option_copied text.entry)) }
{
    let Some(text) = text else {
        return (place(0, None), place(0, None));
    };
    let (username, rest) = split_at_delimiter(text, b':');
    let username = place(at, Some(username));
    (
        username,
        offset_after(username.end, without_delimiter(rest)),
    )
}

/// The spans of the components of an authority that begins there.
fn authority_places(at: usize, text: &[u8]) -> InAuthority
    requires { at + length text.now < 2 ^ 64 }
    ensures { AreInAuthority at (Some text.now) result }
{
    let (userinfo, rest) = split_userinfo(text);
    let (username, password) = user_places(at, userinfo);
    let (host, port) = host_places(at + (text.len() - rest.len()), rest);
    InAuthority {
        username,
        password,
        host,
        port,
    }
}

/// The spans of the components of an authority that begins there, if there is one.
fn places_in(at: usize, text: Option<&[u8]>) -> InAuthority
    requires { at + length (unwrap_or (option_copied text) []) < 2 ^ 64 }
    ensures { AreInAuthority at (option_copied text.entry) result }
{
    match text {
        Some(text) => authority_places(at, text),
        None => {
            let absent = place(0, None);
            InAuthority {
                username: absent,
                password: absent,
                host: absent,
                port: absent,
            }
        }
    }
}

/// The authority of a reference, in the text between its scheme and its path: two slashes precede
/// it, if there is one.
fn authority_in(text: &[u8]) -> Option<&[u8]>
    ensures { (a : Option (List ℕ)) → text.now ≡ after_slashes a → option_copied result ≡ a }
{
    match text {
        [b'/', b'/', authority @ ..] => Some(authority),
        _ => None,
    }
}

/// The scheme, if the text of it isn't empty.
fn scheme_of(text: &[u8]) -> Option<&[u8]>
    ensures { option_copied result ≡ if_some text.now }
{
    match text {
        [] => None,
        _ => Some(text),
    }
}

/// The bytes of a query or a fragment, if it is present.
pub(crate) fn bytes_of<'c, K: TextKind>(component: &'c Option<Text<'_, K>>) -> Option<&'c [u8]>
    ensures { option_copied result ≡ component.now }
{
    match component {
        Some(text) => Some(text.as_bytes()),
        None => None,
    }
}

/// A number for the kind of the host, or 0 if there is no authority.
fn host_kind_of(authority: &Option<ScannedAuthority<'_>>) -> u32
    ensures { result ≡ host_number authority.now }
{
    match authority {
        Some(authority) => authority.host_kind(),
        None => 0,
    }
}

fn number_of(port: Option<u16>) -> u32
    ensures { result ≡ unwrap_or port 0 }
{
    match port {
        Some(port) => u32::from(port),
        None => 0,
    }
}

/// The number of the port, or 0 if there is none.
fn port_of(authority: &Option<ScannedAuthority<'_>>) -> u32
    ensures { result ≡ port_number authority.now }
{
    match authority {
        Some(authority) => number_of(authority.port()),
        None => 0,
    }
}

/// The spans of a text's components. What is between the scheme and the path is the authority.
fn spans(
    text: &[u8],
    scheme: Option<&[u8]>,
    path: &[u8],
    query: Option<&[u8]>,
    fragment: Option<&[u8]>,
) -> UriParts
    requires scheme { option_copied scheme ≡ scheme_text text.now }
    requires path { path.now ≡ path_text text.now }
    requires query { option_copied query ≡ query_text text.now }
    requires fragment { option_copied fragment ≡ fragment_text text.now }
    ensures { ArePlaces (scheme_text text.now) (authority_text text.now) (path_text text.now) (query_text text.now) (fragment_text text.now) result }
{
    let begin = delimited_len(scheme);
    let query_len = delimited_len(query);
    let path_end = text.len() - delimited_len(fragment) - query_len;
    let path_begin = path_end - path.len();
    let authority = authority_in(&text[begin..path_begin]);
    let inner = places_in(begin + 2, authority);
    UriParts {
        scheme: place(0, scheme),
        authority: place(begin + 2, authority),
        username: inner.username,
        password: inner.password,
        host: inner.host,
        port: inner.port,
        path: UriSpan {
            begin: path_begin,
            end: path_end,
            present: 1,
        },
        query: offset_after(path_end, query),
        fragment: offset_after(path_end + query_len, fragment),
        host_kind: 0,
        port_number: 0,
    }
}

/// Where the components of a reference begin and end, by what was found in its text.
pub fn places(text: &[u8], pieces: &Pieces<'_>) -> UriParts
    requires scheme { if_some pieces.now.scheme.now ≡ scheme_text text.now }
    requires path { pieces.now.tail.path.now ≡ path_text text.now }
    requires query { pieces.now.tail.query ≡ query_text text.now }
    requires fragment { pieces.now.tail.fragment ≡ fragment_text text.now }
    ensures places { ArePlaces (scheme_text text.now) (authority_text text.now) (path_text text.now) (query_text text.now) (fragment_text text.now) result }
    ensures kind { result.host_kind ≡ host_number pieces.now.authority }
    ensures port { result.port_number ≡ port_number pieces.now.authority }
{
    let query = pieces.tail.query.to_text();
    let fragment = pieces.tail.fragment.to_text();
    let found = spans(
        text,
        scheme_of(pieces.scheme),
        pieces.tail.path,
        bytes_of(&query),
        bytes_of(&fragment),
    );
    UriParts {
        host_kind: host_kind_of(&pieces.authority),
        port_number: port_of(&pieces.authority),
        ..found
    }
}
