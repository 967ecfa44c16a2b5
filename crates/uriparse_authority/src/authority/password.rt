//! The password of an authority: RFC 3986, section 3.2.1.
ghost use Rattle.uriparse_text.specs.declared.internal.class.Class.TheVariants as class;
ghost use Rattle.uriparse_text.specs.declared.internal.token.Case.TheVariants as case;
ghost use Rattle.uriparse_authority.specs.Password as spec;

use super::error::PasswordError;
use uriparse_text::internal::{Case, Class, Text, TextKind};

/// The kind of text that a password is.
pub struct PasswordKind;

impl TextKind for PasswordKind {
    type Error = PasswordError;

    ghost class = { class.UserInfo };

    ghost case = { case.Kept };

    ghost error_of = { spec.error_of };

    fn name() -> &'static str {
        "Password"
    }

    fn class() -> Class {
        Class::UserInfo
    }

    fn case() -> Case {
        Case::Kept
    }

    fn error_of(byte: u8) -> PasswordError {
        match byte {
            b'%' => PasswordError::InvalidPercentEncoding,
            _ => PasswordError::InvalidCharacter,
        }
    }
}

/// The password of an authority, without the `:` before it: a text of unreserved bytes, escapes,
/// sub-delimiters and `:`, possibly empty.
///
/// RFC 3986, section 3.2.1, defines only user information, and deprecates passwords there. The
/// password is what follows its first `:`.
///
/// It borrows the text that it was read from, or owns its text. Its readers do not allocate. They
/// report the leftmost fault: [`InvalidPercentEncoding`](PasswordError::InvalidPercentEncoding) for
/// a `%` without two hexadecimal digits after it, else
/// [`InvalidCharacter`](PasswordError::InvalidCharacter). Two passwords are equal if their
/// canonical spellings are. It has the calls of [`Text`].
///
/// ```
/// let password = Password::try_from_str("a:%7e")?;
/// assert!(password.eq_str("a:~") && password.as_str() == "a:%7e");
/// ```
pub type Password<'p> = Text<'p, PasswordKind>;
