//! Setting one part of the authority of a reference: RFC 3986, section 3.2.
ghost use Rattle.std.specs.Prelude.{◌≡◌, if◌then◌else◌, Err, Ok, Some};
ghost use Rattle.uriparse_text.specs.Readings.{Settles};
ghost use Rattle.uriparse_reference.specs.Beside as spec;
ghost use Rattle.uriparse_reference.specs.declared.uri_reference.change.ChangeError.TheVariants as errors;

use super::super::URIReference;
use super::super::change::ChangeError;
use uriparse_authority::authority::{Authority, Host, Password, Username};

/// What setting or removing a part of an authority yields where there is none.
fn without_host(is_set: bool) -> Result<(), ChangeError>
    ensures { result ≡ (if is_set then Err errors.MissingHost else Ok tt) }
{
    if is_set {
        Err(ChangeError::MissingHost)
    } else {
        Ok(())
    }
}

/// Sets the host of the authority, or makes an authority of the host alone.
fn put_host<'r>(authority: &mut Option<Authority<'r>>, host: Host<'r>)
    ensures { authority.new ≡ Some (spec.authority_of_host authority.old host.entry) }
{
    match authority {
        Some(held) => {
            let _ok = held.set_host(host);
        }
        None => *authority = Authority::from_parts(None, None, host, None).ok(),
    }
}

impl<'r> URIReference<'r> {
    /// Sets the host, and keeps the user name, the password and the port. Without an authority, makes
    /// one of this host alone, and the path absolute as [`set_authority`](URIReference::set_authority)
    /// does. Never fails. Does not allocate.
    ///
    /// ```
    /// let mut reference = URIReference::try_from_str(alloc, "http://u@h:80/a")?;
    /// reference.set_host(Host::try_from_str("example.org")?);
    /// assert_eq!(reference.to_string(alloc)?.as_str(), "http://u@example.org:80/a");
    /// ```
    pub fn set_host(&mut self, host: Host<'r>)
        ensures { self.new ≡ spec.with_host self.old host.entry }
    {
        self.path.set_absolute(true);
        put_host(&mut self.authority, host);
    }

    /// Sets or removes the user name. Removing it also removes the password, as
    /// [`Authority::set_username`] does. Without an authority, setting it fails with
    /// [`MissingHost`](ChangeError::MissingHost), and the reference is unchanged; removing it then
    /// changes nothing. Does not allocate.
    ///
    /// ```
    /// let mut reference = URIReference::try_from_str(alloc, "//u:p@h")?;
    /// reference.set_username(None)?;
    /// assert_eq!(reference.to_string(alloc)?.as_str(), "//h/");
    /// ```
    #[tactic(auto, using(crate::proofs::lemmas::edits::BesideLemmas::none_beside))]
    pub fn set_username(&mut self, username: Option<Username<'r>>) -> Result<(), ChangeError>
        ensures { Settles self.old self.new result (spec.with_username self.old username.entry) }
    {
        let Some(authority) = &mut self.authority else {
            return without_host(username.is_some());
        };
        let _ok = authority.set_username(username);
        Ok(())
    }

    /// Sets or removes the password. A password without a user name gets an empty one, as
    /// [`Authority::set_password`] says. Without an authority, setting it fails with
    /// [`MissingHost`](ChangeError::MissingHost), and the reference is unchanged; removing it then
    /// changes nothing. Does not allocate.
    ///
    /// ```
    /// let mut reference = URIReference::try_from_str(alloc, "//h")?;
    /// reference.set_password(Some(Password::try_from_str("p")?))?;
    /// assert_eq!(reference.to_string(alloc)?.as_str(), "//:p@h/");
    /// ```
    #[tactic(auto, using(crate::proofs::lemmas::edits::BesideLemmas::none_beside))]
    pub fn set_password(&mut self, password: Option<Password<'r>>) -> Result<(), ChangeError>
        ensures { Settles self.old self.new result (spec.with_password self.old password.entry) }
    {
        let Some(authority) = &mut self.authority else {
            return without_host(password.is_some());
        };
        let _ok = authority.set_password(password);
        Ok(())
    }

    /// Sets or removes the port. Without an authority, setting it fails with
    /// [`MissingHost`](ChangeError::MissingHost), and the reference is unchanged; removing it then
    /// changes nothing. Does not allocate.
    ///
    /// ```
    /// let mut reference = URIReference::try_from_str(alloc, "http://u@h/a")?;
    /// reference.set_port(Some(8080))?;
    /// assert_eq!(reference.to_string(alloc)?.as_str(), "http://u@h:8080/a");
    /// let mut path = URIReference::try_from_str(alloc, "/a")?;
    /// assert!(path.set_port(Some(80)) == Err(ChangeError::MissingHost));
    /// ```
    #[tactic(auto, using(crate::proofs::lemmas::edits::BesideLemmas::none_beside))]
    pub fn set_port(&mut self, port: Option<u16>) -> Result<(), ChangeError>
        ensures { Settles self.old self.new result (spec.with_port self.old port) }
    {
        let Some(authority) = &mut self.authority else {
            return without_host(port.is_some());
        };
        authority.set_port(port);
        Ok(())
    }

    /// The reference without its user name and its password: RFC 3986, section 3.2.1.
    /// [`without_password`](URIReference::without_password) only hides the password where the
    /// reference is printed. Does not allocate.
    ///
    /// ```
    /// let reference = URIReference::try_from_str(alloc, "http://u:p@h:80/a")?;
    /// assert_eq!(reference.without_userinfo().to_string(alloc)?.as_str(), "http://h:80/a");
    /// ```
    pub fn without_userinfo(self) -> URIReference<'r>
        ensures { result ≡ spec.without_userinfo self.entry }
    {
        let mut reference = self;
        if let Some(authority) = &mut reference.authority {
            let _ok = authority.set_username(None);
        }
        reference
    }
}
