//! The status of a scheme.
ghost use Rattle.std.specs.Prelude.{◌≡◌, ◌↔◌, IsTrue};
ghost use Rattle.uriparse_scheme.specs.declared.scheme.status.SchemeStatus.TheVariants as status;

/// The status of a scheme in this library's table.
#[derive(Clone, Copy, Debug, PartialEq, Eq, Hash)]
pub enum SchemeStatus {
    /// Registered, but no longer in use.
    Historical,
    /// Registered permanently.
    Permanent,
    /// Registered provisionally.
    Provisional,
    /// Not registered.
    Unregistered,
}

impl SchemeStatus {
    /// Whether this is [`Historical`](SchemeStatus::Historical).
    pub fn is_historical(self) -> bool
        ensures { IsTrue result ↔ (self ≡ status.Historical) }
    {
        matches!(self, SchemeStatus::Historical)
    }

    /// Whether this is [`Permanent`](SchemeStatus::Permanent).
    pub fn is_permanent(self) -> bool
        ensures { IsTrue result ↔ (self ≡ status.Permanent) }
    {
        matches!(self, SchemeStatus::Permanent)
    }

    /// Whether this is [`Provisional`](SchemeStatus::Provisional).
    pub fn is_provisional(self) -> bool
        ensures { IsTrue result ↔ (self ≡ status.Provisional) }
    {
        matches!(self, SchemeStatus::Provisional)
    }

    /// Whether this is [`Unregistered`](SchemeStatus::Unregistered).
    pub fn is_unregistered(self) -> bool
        ensures { IsTrue result ↔ (self ≡ status.Unregistered) }
    {
        matches!(self, SchemeStatus::Unregistered)
    }
}
