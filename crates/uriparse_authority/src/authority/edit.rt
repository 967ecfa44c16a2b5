//! Setting and mapping the components of an authority: RFC 3986, section 3.2.
ghost use Rattle.std.specs.Prelude.{◌≡◌, Ok};
ghost use Rattle.uriparse_authority.specs.Authority as spec;

use super::username::empty_username;
use super::{Authority, AuthorityError, Host, Ipv4Addr, Password, Username, with_empty};
use std::mem;

/// Puts a value in the place of another, which is let go here and not in each caller.
#[inline(always)]
pub(super) fn set<T: Drop>(place: &mut T, value: T)
    ensures { place.new ≡ value }
{
    *place = value;
}

impl<'a> Authority<'a> {
    /// Sets the host. Always succeeds, and changes nothing else. Does not allocate.
    pub fn set_host(&mut self, host: Host<'a>) -> Result<(), AuthorityError>
        ensures answer { result ≡ Ok tt }
        ensures value { self.new ≡ spec.with_host self.old host.entry }
    {
        set(&mut self.host, host);
        Ok(())
    }

    /// Sets the user name. Always succeeds. Without a user name there is no password, so `None`
    /// drops the password too; nothing else changes. Does not allocate.
    pub fn set_username(&mut self, username: Option<Username<'a>>) -> Result<(), AuthorityError>
        ensures answer { result ≡ Ok tt }
        ensures value { self.new ≡ spec.with_username self.old username.entry }
    {
        if username.is_none() {
            set(&mut self.password, None);
        }
        set(&mut self.username, username);
        Ok(())
    }

    /// Sets the password. Always succeeds. A password without a user name gets an empty user name;
    /// nothing else changes. Does not allocate.
    pub fn set_password(&mut self, password: Option<Password<'a>>) -> Result<(), AuthorityError>
        ensures answer { result ≡ Ok tt }
        ensures value { self.new ≡ spec.with_password self.old password.entry }
    {
        let username = with_empty(self.username.take(), password.is_some());
        set(&mut self.username, username);
        set(&mut self.password, password);
        Ok(())
    }

    /// Sets the port, and returns it. Changes nothing else. Does not allocate.
    pub fn set_port(&mut self, port: Option<u16>) -> Option<u16>
        ensures answer { result ≡ port }
        ensures value { self.new ≡ spec.with_port self.old port }
    {
        self.port = port;
        port
    }

    /// Sets the host to what the closure returns for it. Always succeeds, and changes nothing else.
    /// Does not allocate, unless the closure does.
    pub fn map_host<F>(&mut self, make: F) -> Result<(), AuthorityError>
    where
        F: FnOnce(Host<'a>) -> Host<'a>,
        requires { F.pre make self.old.host }
        ensures answer { result ≡ Ok tt }
        ensures value { (host : _) × F.post make self.old.host host × (self.new ≡ spec.with_host self.old host) }
    {
        let old = mem::replace(&mut self.host, Host::IPv4Address(Ipv4Addr::new(0, 0, 0, 0)));
        self.set_host(make(old))
    }

    /// Sets the user name to what the closure returns for it. Always succeeds. Without a user name
    /// there is no password, so a closure that returns `None` drops the password too; nothing else
    /// changes. Does not allocate, unless the closure does.
    pub fn map_username<F>(&mut self, make: F) -> Result<(), AuthorityError>
    where
        F: FnOnce(Option<Username<'a>>) -> Option<Username<'a>>,
        requires { F.pre make self.old.username }
        ensures answer { result ≡ Ok tt }
        ensures value { (username : _) × F.post make self.old.username username × (self.new ≡ spec.with_username self.old username) }
    {
        let old = mem::replace(&mut self.username, Some(empty_username()));
        self.set_username(make(old))
    }

    /// Sets the password to what the closure returns for it. Always succeeds. A password without a
    /// user name gets an empty user name; nothing else changes. Does not allocate, unless the
    /// closure does.
    pub fn map_password<F>(&mut self, make: F) -> Result<(), AuthorityError>
    where
        F: FnOnce(Option<Password<'a>>) -> Option<Password<'a>>,
        requires { F.pre make self.old.password }
        ensures answer { result ≡ Ok tt }
        ensures value { (password : _) × F.post make self.old.password password × (self.new ≡ spec.with_password self.old password) }
    {
        let old = self.password.take();
        self.set_password(make(old))
    }

    /// Sets the port to what the closure returns for it, and returns the new port. Changes nothing
    /// else. Does not allocate, unless the closure does.
    pub fn map_port<F>(&mut self, make: F) -> Option<u16>
    where
        F: FnOnce(Option<u16>) -> Option<u16>,
        requires { F.pre make self.old.port }
        ensures { (port : _) × F.post make self.old.port port × (result ≡ port) × (self.new ≡ spec.with_port self.old port) }
    {
        self.set_port(make(self.port))
    }
}
