//! The port of an authority: RFC 3986, section 3.2.3.
ghost use Rattle.std.specs.Prelude.{◌≡◌};
ghost use Rattle.uriparse_authority.specs.Port as port;

use super::error::PortError;

/// Reads a port, without the `:` before it: a decimal number of at most 65535, which may have
/// leading zeros. Returns `None` for the empty text. Does not allocate.
///
/// Reports the leftmost fault: [`InvalidCharacter`](PortError::InvalidCharacter) for a byte that is
/// not a decimal digit, or [`Overflow`](PortError::Overflow) for the digit with which the number
/// exceeds 65535, whichever comes first.
///
/// RFC 3986, section 3.2.3, sets no maximum; 65535 is the largest port of TCP and UDP, which has
/// 16 bits.
///
/// ```
/// assert!(parse_port(b"00000080") == Ok(Some(80)) && parse_port(b"") == Ok(None));
/// assert!(parse_port(b"65536x") == Err(PortError::Overflow));
/// assert!(parse_port(b"6553x6") == Err(PortError::InvalidCharacter));
/// ```
pub fn parse_port(bytes: &[u8]) -> Result<Option<u16>, PortError>
    ensures { result ≡ port.reading bytes.now }
{
    let mut number: u32 = 0;
    for b in bytes {
        if !b.is_ascii_digit() {
            return Err(PortError::InvalidCharacter);
        }
        number = number * 10 + u32::from(*b - b'0');
        if number > u32::from(u16::MAX) {
            return Err(PortError::Overflow);
        }
    }
    if bytes.is_empty() {
        Ok(None)
    } else {
        Ok(Some(number as u16))
    }
}
