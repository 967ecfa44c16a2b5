//! Segments that servers take for different ones, by the bytes that they represent: RFC 3986, section
//! 7.3.
ghost use Rattle.std.specs.Prelude.{◌≡◌, ◌∷◌, [], MatchOption, bytes_eq, false, true};
ghost use Rattle.uriparse_text.specs.Ambiguous as spec;
ghost use Rattle.uriparse_text.specs.Bytes.{dot};
ghost use Rattle.uriparse_text.specs.Coding.{decoded};
ghost use Rattle.uriparse_text.specs.Tokens.{has_digits};

use super::split::split_at_delimiter;
use super::token::{Token, split_token};

/// Whether a token is an escape of NUL, `%`, `/` or `\`.
fn is_ambiguous_token(token: Token) -> bool
    requires { has_digits token ≡ true }
    ensures { result ≡ spec.is_ambiguous_token token }
{
    match token {
        Token::Byte(_) => false,
        Token::Escape(_, _) => is_ambiguous_byte(token.value()),
    }
}

/// Whether the byte is NUL, `%`, `/` or `\`.
fn is_ambiguous_byte(b: u8) -> bool
    ensures { result ≡ spec.is_ambiguous_byte b }
{
    matches!(b, 0 | b'%' | b'/' | b'\\')
}

/// Whether the text has such an escape. Only looks at its escapes.
pub fn has_ambiguous_escape(text: &[u8]) -> bool
    ensures { result ≡ spec.has_ambiguous_escape text.now }
{
    let (_, mut rest) = split_at_delimiter(text, b'%');
    'escapes: while let Some((token, after)) = split_token(rest) {
        if is_ambiguous_token(token) {
            return true;
        }
        let (_, later) = split_at_delimiter(after, b'%');
        rest = later;
    }
    false
}

/// The byte that the first token represents, and what follows that token.
fn split_represented(text: &[u8]) -> Option<(u8, &[u8])>
    ensures { MatchOption result (decoded text.now ≡ []) (λ x. decoded text.now ≡ x.0 ∷ decoded x.1.now) }
{
    match split_token(text) {
        Some((token, after)) => Some((token.value(), after)),
        None => None,
    }
}

/// Whether the byte is `;`, `?` or `#`.
fn is_name_end(b: u8) -> bool
    ensures { result ≡ spec.is_name_end b }
{
    matches!(b, b';' | b'?' | b'#')
}

/// Whether the text begins with a `;` or an escape of `;`, `?` or `#`.
fn begins_with_end(text: &[u8]) -> bool
    ensures { result ≡ spec.begins_with_end (decoded text.now) }
{
    match split_represented(text) {
        Some((b, _)) => is_name_end(b),
        None => false,
    }
}

/// Whether the text is empty or begins with a `;` or an escape of `;`, `?` or `#`.
pub fn lacks_name(text: &[u8]) -> bool
    ensures { result ≡ bytes_eq (spec.name_of text.now) [] }
{
    match split_represented(text) {
        Some((b, _)) => is_name_end(b),
        None => true,
    }
}

/// What follows a dot, plain or escaped, if the text begins with one.
fn strip_dot(text: &[u8]) -> Option<&[u8]>
    ensures { MatchOption result (spec.begins_with_dot (decoded text.now) ≡ false) (λ x. decoded text.now ≡ dot ∷ decoded x.now) }
{
    match split_represented(text) {
        Some((b, rest)) => { if b == b'.' { Some(rest) } else { None } }
        None => None,
    }
}

/// Whether the text is a dot segment, then a `;` or an escape of `;`, `?` or `#`, and whatever
/// follows.
pub fn has_dots_before_end(text: &[u8]) -> bool
    ensures { result ≡ spec.has_dots_before_end text.now }
{
    let Some(rest) = strip_dot(text) else {
        return false;
    };
    if begins_with_end(rest) {
        return true;
    }
    match strip_dot(rest) {
        Some(rest) => begins_with_end(rest),
        None => false,
    }
}
