//! The codes that a caller in C gets: 0, or one for each error.
ghost use Rattle.std.specs.Prelude.{◌≡◌, ◌≤◌};
ghost use Rattle.uriparse_ffi.specs.Code as spec;

use uriparse::authority::{AuthorityError, HostError, PasswordError, PortError, UsernameError};
use uriparse::{FragmentError, PathError, QueryError, SchemeError, URIError, URIReferenceError};

pub const ACCEPTED: u32 = 0;

pub const OUT_OF_MEMORY: u32 = 1;

pub const NO_ROOM: u32 = 2;

pub const NO_SCHEME: u32 = 3;

pub const TOO_MANY_SEGMENTS: u32 = 5;

pub const NO_COMPONENT: u32 = 8;

pub const NO_ORIGIN: u32 = 10;

pub const MISSING_HOST: u32 = 11;

pub const BAD_CHANGE: u32 = 12;

pub const BAD_NAMES: u32 = 13;

pub const NO_PAIRS: u32 = 14;

pub const NO_ADDRESS: u32 = 15;

pub const KEY_FLAGS: u32 = 0x90;

pub const NO_TARGET: u32 = 0x91;

pub const IN_BASE: u32 = 0x100;

fn of_username(error: UsernameError) -> u32
    ensures code { result ≡ spec.username_code error }
    ensures small { result ≤ 255 }
{
    match error {
        UsernameError::ContainsColon => 0x10,
        UsernameError::InvalidCharacter => 0x11,
        UsernameError::InvalidPercentEncoding => 0x12,
    }
}

fn of_password(error: PasswordError) -> u32
    ensures code { result ≡ spec.password_code error }
    ensures small { result ≤ 255 }
{
    match error {
        PasswordError::InvalidCharacter => 0x21,
        PasswordError::InvalidPercentEncoding => 0x22,
    }
}

/// The code of a host's error.
pub fn of_host(error: HostError) -> u32
    ensures code { result ≡ spec.host_code error }
    ensures small { result ≤ 255 }
{
    match error {
        HostError::AddressMechanismNotSupported => 0x30,
        HostError::InvalidIPv4OrRegisteredNameCharacter => 0x31,
        HostError::InvalidIPv6Character => 0x32,
        HostError::InvalidIPv6Format => 0x33,
        HostError::InvalidIPvFutureCharacter => 0x34,
        HostError::InvalidIPvFutureFormat => 0x35,
    }
}

fn of_port(error: PortError) -> u32
    ensures code { result ≡ spec.port_code error }
    ensures small { result ≤ 255 }
{
    match error {
        PortError::InvalidCharacter => 0x41,
        PortError::Overflow => 0x42,
    }
}

fn of_authority(error: AuthorityError) -> u32
    ensures code { result ≡ spec.authority_code error }
    ensures small { result ≤ 255 }
{
    match error {
        AuthorityError::Host(error) => of_host(error),
        AuthorityError::Password(error) => of_password(error),
        AuthorityError::Port(error) => of_port(error),
        AuthorityError::Username(error) => of_username(error),
    }
}

/// The code of a path's error.
pub fn of_path(error: PathError) -> u32
    ensures code { result ≡ spec.path_code error }
    ensures small { result ≤ 255 }
{
    match error {
        PathError::ExceededMaximumLength => TOO_MANY_SEGMENTS,
        PathError::InvalidCharacter => 0x51,
        PathError::InvalidPercentEncoding => 0x52,
        PathError::OutOfMemory => OUT_OF_MEMORY,
    }
}

/// The code of a query's error.
pub fn of_query(error: QueryError) -> u32
    ensures code { result ≡ spec.query_code error }
    ensures small { result ≤ 255 }
{
    match error {
        QueryError::InvalidCharacter => 0x61,
        QueryError::InvalidPercentEncoding => 0x62,
    }
}

fn of_fragment(error: FragmentError) -> u32
    ensures code { result ≡ spec.fragment_code error }
    ensures small { result ≤ 255 }
{
    match error {
        FragmentError::InvalidCharacter => 0x71,
        FragmentError::InvalidPercentEncoding => 0x72,
    }
}

fn of_scheme(error: SchemeError) -> u32
    ensures code { result ≡ spec.scheme_code error }
    ensures small { result ≤ 255 }
{
    match error {
        SchemeError::Empty => 0x80,
        SchemeError::InvalidCharacter => 0x81,
        SchemeError::StartsWithNonAlphabetic => 0x82,
    }
}

/// The code of a reference's error.
pub fn code_of(error: URIReferenceError) -> u32
    ensures code { result ≡ spec.code_of error }
    ensures small { result ≤ 255 }
{
    match error {
        URIReferenceError::AbsolutePathStartsWithTwoSlashes => 6,
        URIReferenceError::SchemelessPathStartsWithColonSegment => 4,
        URIReferenceError::MissingPath => 7,
        URIReferenceError::Authority(error) => of_authority(error),
        URIReferenceError::Path(error) => of_path(error),
        URIReferenceError::Query(error) => of_query(error),
        URIReferenceError::Fragment(error) => of_fragment(error),
        URIReferenceError::Scheme(error) => of_scheme(error),
    }
}

/// The code of a URI's error.
pub fn uri_code(error: URIError) -> u32
    ensures code { result ≡ spec.uri_code error }
    ensures small { result ≤ 255 }
{
    match error {
        URIError::AbsolutePathStartsWithTwoSlashes => 6,
        URIError::MissingPath => 7,
        URIError::MissingScheme => 9,
        URIError::NotURI => NO_SCHEME,
        URIError::Authority(error) => of_authority(error),
        URIError::Path(error) => of_path(error),
        URIError::Query(error) => of_query(error),
        URIError::Fragment(error) => of_fragment(error),
        URIError::Scheme(error) => of_scheme(error),
    }
}

/// The code of a base's error. Out of memory is not an error of the base.
pub fn base_code(error: URIError) -> u32
    ensures { result ≡ spec.base_code (spec.uri_code error) }
{
    let code = uri_code(error);
    if code == OUT_OF_MEMORY {
        OUT_OF_MEMORY
    } else {
        IN_BASE + code
    }
}

/// A truth value as a byte in C's memory.
pub fn truth_of(answer: bool) -> u8
    ensures { result ≡ spec.truth answer }
{
    if answer { 1 } else { 0 }
}
