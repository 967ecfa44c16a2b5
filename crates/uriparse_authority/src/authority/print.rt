//! The text of an authority: RFC 3986, sections 3.2 and 5.3.
ghost use Rattle.std.specs.Option.{option_map};
ghost use Rattle.std.specs.Fmt.{WritesOnOk, WritesStyledOnOk};
ghost use Rattle.uriparse_text.specs.Bytes.{at_sign, colon};
ghost use Rattle.uriparse_text.specs.Cuts.{ahead, following};
ghost use Rattle.uriparse_authority.specs.Authority.{userinfo};
ghost use Rattle.uriparse_authority.specs.Port as ports;

use super::{Password, Username};
use std::fmt;
use uriparse_text::internal::write_plain;

/// Writes a colon and the password, if there is one.
fn write_password<W: fmt::Write>(
    password: &Option<Password<'_>>,
    f: &mut fmt::Formatter<W>,
) -> fmt::Result
    ensures writes { WritesOnOk W.write_str_gives f.old result (following colon password.now) f.new }
    ensures styled { WritesStyledOnOk W.write_str_gives f.old result (following colon password.now) f.new }
{
    if let Some(password) = password {
        f.write_str(":")?;
        f.write_str(password.as_str())?;
    }
    Ok(())
}

/// Writes the user name, the password and an `@`, if there is a user name.
pub(super) fn write_user<W: fmt::Write>(
    username: &Option<Username<'_>>,
    password: &Option<Password<'_>>,
    f: &mut fmt::Formatter<W>,
) -> fmt::Result
    ensures writes { WritesOnOk W.write_str_gives f.old result (ahead at_sign (userinfo username.now password.now)) f.new }
    ensures styled { WritesStyledOnOk W.write_str_gives f.old result (ahead at_sign (userinfo username.now password.now)) f.new }
{
    if let Some(username) = username {
        f.write_str(username.as_str())?;
        write_password(password, f)?;
        f.write_str("@")?;
    }
    Ok(())
}

/// Writes a colon and the port, if there is one.
pub(super) fn write_port<W: fmt::Write>(port: Option<u16>, f: &mut fmt::Formatter<W>) -> fmt::Result
    ensures writes { WritesOnOk W.write_str_gives f.old result (following colon (option_map ports.text port)) f.new }
    ensures styled { WritesStyledOnOk W.write_str_gives f.old result (following colon (option_map ports.text port)) f.new }
{
    if let Some(port) = port {
        f.write_str(":")?;
        write_plain(port, f)?;
    }
    Ok(())
}
