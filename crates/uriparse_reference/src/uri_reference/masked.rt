//! A reference as it may be shown: RFC 3986, section 7.5.
ghost use Rattle.std.specs.Prelude.{◌≡◌, Some};
ghost use Rattle.std.specs.Option.{option_map};
ghost use Rattle.std.specs.Fmt.{WritesOnOk, WritesStyledOnOk};
ghost use Rattle.uriparse_authority.specs.Authority as authorities;
ghost use Rattle.uriparse_reference.specs.Masked as spec;
ghost use Rattle.uriparse_reference.specs.Reference.{after_slashes, print};

use super::URIReference;
use super::print::{write_authority, write_back, write_scheme};
use std::fmt;
use std::marker::Model;
use uriparse_authority::authority::{Authority, Password};
use uriparse_text::internal::{Held, checked_text};

/// A reference that prints `***` in place of its password, for logs and messages: RFC 3986, section
/// 7.5. [`URIReference::without_password`] makes it. Contracts see it as the whole reference.
#[derive(Drop)]
pub struct WithoutPassword<'w, 'r> {
    reference: &'w URIReference<'r>,
}

impl<'w, 'r> Model for WithoutPassword<'w, 'r> {
    ghost use Rattle.uriparse_reference.specs.Reference.{Parts};

    ghost Value = { Parts };

    ghost view = { λ w. w.reference.now };
}

/// What stands for a password.
fn stars() -> Password<'static>
    ensures { result ≡ spec.stars }
{
    checked_text(b"***")
}

/// The authority with its password, if there is one, hidden. Does not allocate.
fn masked_authority<'w>(authority: &'w Authority<'_>) -> Authority<'w>
    ensures { result ≡ spec.masked_authority authority.now }
{
    let mut shown = authority.as_borrowed();
    if authority.has_password() {
        let _ok = shown.set_password(Some(stars()));
    }
    shown
}

/// Writes two slashes and the authority with a hidden password, if there is an authority.
fn write_masked<W: fmt::Write>(
    authority: &Option<Authority<'_>>,
    f: &mut fmt::Formatter<W>,
) -> fmt::Result
    ensures writes { WritesOnOk W.write_str_gives f.old result (after_slashes (option_map authorities.print (option_map spec.masked_authority authority.now))) f.new }
    ensures styled { WritesStyledOnOk W.write_str_gives f.old result (after_slashes (option_map authorities.print (option_map spec.masked_authority authority.now))) f.new }
{
    match authority {
        Some(authority) => {
            let shown = Held(Some(masked_authority(authority)));
            write_authority(&shown.0, f)
        }
        None => Ok(()),
    }
}

impl<'r> URIReference<'r> {
    /// The reference as it may be shown: prints `***` in place of the password, if there is one, and
    /// else as the reference itself, which still has the password
    /// ([`without_userinfo`](URIReference::without_userinfo) removes it). Does not allocate.
    ///
    /// ```
    /// let reference = URIReference::try_from_str(alloc, "ftp://u:secret@h/a")?;
    /// assert_eq!(format!(in alloc; "{}", reference.without_password())?.as_str(), "ftp://u:***@h/a");
    /// ```
    pub fn without_password(&self) -> WithoutPassword<'_, 'r>
        ensures { result ≡ self.now }
    {
        WithoutPassword { reference: self }
    }
}

impl<'w, 'r> fmt::Display for WithoutPassword<'w, 'r> {
    ghost output = { λ w. Some (print (spec.masked w)) };

    // The formatter's options do not change the output.
    ghost styled_output = { λ w _. Some (print (spec.masked w)) };

    fn fmt<W: fmt::Write>(&self, f: &mut fmt::Formatter<W>) -> fmt::Result {
        let reference = self.reference;
        write_scheme(&reference.scheme, f)?;
        write_masked(&reference.authority, f)?;
        write_back(&reference.path, &reference.query, &reference.fragment, f)
    }
}
