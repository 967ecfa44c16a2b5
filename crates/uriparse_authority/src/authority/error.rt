//! Why an authority or a component of it is rejected.
ghost use Rattle.std.specs.Prelude.{◌≡◌};
ghost use Rattle.uriparse_authority.specs.declared.authority.error.AuthorityError.TheVariants as errors;

use thiserror::Error;

/// Why a text is not a registered name.
#[derive(Clone, Copy, Debug, PartialEq, Eq, Hash, Error)]
#[error("invalid registered name")]
pub struct RegisteredNameError;

/// Why a text is not a host.
#[derive(Clone, Copy, Debug, PartialEq, Eq, Hash, Error)]
pub enum HostError {
    /// No call returns this. Earlier versions rejected each address of a later version
    /// ([`IPvFuture`](super::IPvFuture)) with it.
    #[error("host address mechanism not supported")]
    AddressMechanismNotSupported,
    /// A byte that is not allowed in a name, or a broken escape. In an authority read by itself,
    /// also a byte that follows its IPv4 address or name.
    #[error("invalid host IPv4 or registered name character")]
    InvalidIPv4OrRegisteredNameCharacter,
    /// A byte between brackets that no IPv6 address has. In an authority read by itself, also a
    /// byte that follows its IPv6 address.
    #[error("invalid host IPv6 character")]
    InvalidIPv6Character,
    /// Bytes of an IPv6 address between brackets, but not one of its forms.
    #[error("invalid host IPv6 format")]
    InvalidIPv6Format,
    /// A byte that no address of a later version has. In an authority read by itself, also a byte
    /// that follows such an address.
    #[error("invalid host IPvFuture character")]
    InvalidIPvFutureCharacter,
    /// Bytes of an address of a later version, but not its form: `v`, hexadecimal digits, a dot,
    /// and at least one byte more.
    #[error("invalid host IPvFuture format")]
    InvalidIPvFutureFormat,
}

/// Why a text is not a user name: its leftmost fault.
#[derive(Clone, Copy, Debug, PartialEq, Eq, Hash, Error)]
pub enum UsernameError {
    /// A `:`, which ends a user name.
    #[error("username contains a colon character")]
    ContainsColon,
    /// Another byte that is not allowed in a user name.
    #[error("invalid username character")]
    InvalidCharacter,
    /// A `%` without two hexadecimal digits after it.
    #[error("invalid username percent encoding")]
    InvalidPercentEncoding,
}

/// Why a text is not a password: its leftmost fault.
#[derive(Clone, Copy, Debug, PartialEq, Eq, Hash, Error)]
pub enum PasswordError {
    /// A byte that is not allowed in a password.
    #[error("invalid password character")]
    InvalidCharacter,
    /// A `%` without two hexadecimal digits after it.
    #[error("invalid password percent encoding")]
    InvalidPercentEncoding,
}

/// Why a text is not a port: its leftmost fault.
#[derive(Clone, Copy, Debug, PartialEq, Eq, Hash, Error)]
pub enum PortError {
    /// A byte that is not a decimal digit. In an authority read by itself, also a byte that follows
    /// its port.
    #[error("invalid port character")]
    InvalidCharacter,
    /// The digit with which the number exceeds 65535.
    #[error("port overflow")]
    Overflow,
}

/// Why a text is not an authority: the fault of its first faulty component, in the order user name,
/// password, host, port.
#[derive(Clone, Copy, Debug, PartialEq, Eq, Hash, Error)]
pub enum AuthorityError {
    /// The host's fault.
    #[error(transparent)]
    Host(HostError),
    /// The password's fault.
    #[error(transparent)]
    Password(PasswordError),
    /// The port's fault.
    #[error(transparent)]
    Port(PortError),
    /// The user name's fault.
    #[error(transparent)]
    Username(UsernameError),
}

impl From<HostError> for AuthorityError {
    ghost from_gives = { λ x e. e ≡ errors.Host x };

    fn from(error: HostError) -> AuthorityError {
        AuthorityError::Host(error)
    }
}

impl From<PasswordError> for AuthorityError {
    ghost from_gives = { λ x e. e ≡ errors.Password x };

    fn from(error: PasswordError) -> AuthorityError {
        AuthorityError::Password(error)
    }
}

impl From<PortError> for AuthorityError {
    ghost from_gives = { λ x e. e ≡ errors.Port x };

    fn from(error: PortError) -> AuthorityError {
        AuthorityError::Port(error)
    }
}

impl From<UsernameError> for AuthorityError {
    ghost from_gives = { λ x e. e ≡ errors.Username x };

    fn from(error: UsernameError) -> AuthorityError {
        AuthorityError::Username(error)
    }
}
