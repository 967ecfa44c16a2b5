//! What the crates above build on. Users do not need it.
ghost use Rattle.std.specs.Prelude.{◌≡◌, ◌≤◌, ◌⊎◌, ◌++◌, length};
ghost use Rattle.std.specs.Option.{option_map};
ghost use Rattle.uriparse_text.specs.Bytes.{colon};
ghost use Rattle.uriparse_text.specs.Cuts.{following};
ghost use Rattle.uriparse_text.specs.Ends.{Puts};
ghost use Rattle.uriparse_authority.specs.Authority.{print};
ghost use Rattle.uriparse_authority.specs.Host as hosts;
ghost use Rattle.uriparse_authority.specs.Port as ports;
ghost use Rattle.uriparse_authority.specs.Ends.{formed_authority, formed_host};

pub use crate::authority::normal::{CanonicalCopies, canonical_copies, put_copies};
pub use crate::authority::offset::offset_in_authority;
pub use crate::authority::pieces::check_pieces;
pub use crate::authority::read::{find_authority, split_before_path, split_port, split_userinfo};
pub use crate::authority::scanned::{ScannedAuthority, scanned_named};
use crate::authority::{Authority, Host, write};
use uriparse_text::internal::Form;

/// An upper bound on the number of bytes of the authority's text, or `usize::MAX`.
pub fn most_authority_bytes(authority: &Authority<'_>) -> usize
    ensures { length (print authority.now) ≤ result ⊎ result ≡ usize.MAX }
{
    authority.most_bytes()
}

/// Puts the host and, if there is one, a colon and the port before the `len` bytes at the end of the
/// buffer, as [`prepend_authority`] puts an authority.
pub fn prepend_host_and_port(
    form: Form,
    host: &Host<'_>,
    port: Option<u16>,
    out: &mut [u8],
    len: usize,
) -> usize
    ensures room { length out.new ≡ length out.old }
    ensures puts { Puts (hosts.text (formed_host form host.now) ++ following colon (option_map ports.text port)) out.old len out.new result }
    ensures valid { hosts.Valid host.now }
{
    host.assert_valid();
    write::prepend_host_and_port(form, host, port, out, len)
}

/// Puts the text of the authority, without its `//`, before the `len` bytes at the end of the
/// buffer. Returns the length of both. If there is no room, only the length is counted.
pub fn prepend_authority(authority: &Authority<'_>, form: Form, out: &mut [u8], len: usize) -> usize
    ensures room { length out.new ≡ length out.old }
    ensures puts { Puts (print (formed_authority form authority.now)) out.old len out.new result }
{
    authority.prepend(form, out, len)
}
