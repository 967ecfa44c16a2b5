//! Reading the components of an authority, each in a string of its own.
ghost use Rattle.std.specs.Prelude.{◌≡◌, Err, IsOk, MatchResult};
ghost use Rattle.std.specs.Option.{option_copied};
ghost use Rattle.uriparse_authority.specs.Pieces.{pieces_reading};

use super::host::read::find_host;
use super::password::PasswordKind;
use super::username::UsernameKind;
use super::{AuthorityError, parse_port};
use uriparse_text::internal::find_text_if;

/// Reads a user name, a password, a host and a port, each without its delimiter. Does not allocate.
/// Returns the error of the first with a fault.
pub fn check_pieces(
    username: Option<&[u8]>,
    password: Option<&[u8]>,
    host: &[u8],
    port: Option<&[u8]>,
) -> Result<(), AuthorityError>
    ensures { let read = pieces_reading (option_copied username.entry) (option_copied password.entry) host.now (option_copied port.entry) in MatchResult result (λ _. IsOk read) (λ e. read ≡ Err e) }
{
    let _username = find_text_if::<UsernameKind>(username)?;
    let _password = find_text_if::<PasswordKind>(password)?;
    let _host = find_host(host)?;
    let _port = parse_port(port.unwrap_or(b""))?;
    Ok(())
}
