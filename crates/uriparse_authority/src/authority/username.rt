//! The user name of an authority: RFC 3986, section 3.2.1.
ghost use Rattle.std.specs.Prelude.{[], ◌≡◌};
ghost use Rattle.uriparse_text.specs.declared.internal.class.Class.TheVariants as class;
ghost use Rattle.uriparse_text.specs.declared.internal.token.Case.TheVariants as case;
ghost use Rattle.uriparse_authority.specs.Username as spec;

use super::error::UsernameError;
use uriparse_text::internal::{Case, Class, Text, TextKind, checked_text};

/// The kind of text that a user name is.
pub struct UsernameKind;

impl TextKind for UsernameKind {
    type Error = UsernameError;

    ghost class = { class.Name };

    ghost case = { case.Kept };

    ghost error_of = { spec.error_of };

    fn name() -> &'static str {
        "Username"
    }

    fn class() -> Class {
        Class::Name
    }

    fn case() -> Case {
        Case::Kept
    }

    fn error_of(byte: u8) -> UsernameError {
        match byte {
            b'%' => UsernameError::InvalidPercentEncoding,
            b':' => UsernameError::ContainsColon,
            _ => UsernameError::InvalidCharacter,
        }
    }
}

/// The user name of an authority, without what follows it: a text of unreserved bytes, escapes and
/// sub-delimiters, possibly empty.
///
/// RFC 3986, section 3.2.1, defines only user information. Here its first `:`, if it has one, ends
/// the user name, and a [`Password`](super::Password) follows that colon.
///
/// It borrows the text that it was read from, or owns its text. Its readers do not allocate. They
/// report the leftmost fault: [`InvalidPercentEncoding`](UsernameError::InvalidPercentEncoding) for
/// a `%` without two hexadecimal digits after it, [`ContainsColon`](UsernameError::ContainsColon)
/// for a `:`, else [`InvalidCharacter`](UsernameError::InvalidCharacter). Two user names are equal
/// if their canonical spellings are. It has the calls of [`Text`].
///
/// ```
/// let user = Username::try_from_str("j%2e+doe")?;
/// assert!(user.eq_str("j.+doe") && user.as_str() == "j%2e+doe");
/// assert!(Username::try_from_str("a:%") == Err(UsernameError::ContainsColon));
/// ```
pub type Username<'u> = Text<'u, UsernameKind>;

/// The empty user name.
pub(super) fn empty_username() -> Username<'static>
    ensures { result ≡ [] }
{
    checked_text(b"")
}
