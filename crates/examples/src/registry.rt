//! A registry of identifiers, none of which is in it twice.
ghost use Rattle.std.specs.Prelude.{◌≡◌, ◌++◌, ◌∷◌, [], ◌⊎◌, OnOk, OnErr, Ok, Err, false, true};
ghost use Rattle.examples.specs.Equal.{is_among};
ghost use Rattle.examples.specs.declared.registry.RegistryError.TheVariants.{Taken, Memory};

use std::alloc::{AllocFailed, Global};
use std::marker::Model;
use thiserror::Error;
use uriparse::URI;

/// Why an identifier isn't registered.
#[derive(Debug, Drop, Error)]
pub enum RegistryError {
    /// An equal one is in the registry.
    #[error("the identifier is taken")]
    Taken,
    #[error("out of memory")]
    Memory,
}

impl<T: Drop> From<AllocFailed<T>> for RegistryError {
    ghost from_gives = { λ _ e. e ≡ Memory };

    fn from(_error: AllocFailed<T>) -> RegistryError {
        RegistryError::Memory
    }
}

/// Identifiers in the order in which they were registered. No two of them are equal; identifiers
/// are equal if they differ only by percent-encoding of unreserved characters, or by the case of
/// letters where it doesn't count.
///
/// ```
/// let mut registry = Registry::new(alloc);
/// registry.insert(URI::try_from_str(alloc, "urn:a:%7E")?)?;
/// let again = registry.insert(URI::try_from_str(alloc, "URN:a:~")?);
/// assert!(matches!(again, Err(RegistryError::Taken)) && registry.identifiers().len() == 1);
/// ```
#[derive(Drop)]
pub struct Registry<'r> {
    identifiers: Vec<URI<'r>>,
}

impl<'r> Model for Registry<'r> {
    ghost use Rattle.std.specs.Prelude.{List};
    ghost use Rattle.uriparse.specs.Reference.{Parts};
    ghost use Rattle.examples.specs.Registry.{AreDistinct};

    ghost Value = { List Parts };

    ghost view = { λ r. r.identifiers.items };

    ghost invariant = { λ r. AreDistinct r.identifiers.items };
}

impl<'r> Registry<'r> {
    ghost use Rattle.examples.specs.Registry.{AreDistinct};

    /// An empty registry. Does not allocate.
    pub fn new(alloc: Global) -> Registry<'r>
        ensures { result ≡ [] }
    {
        Registry {
            identifiers: Vec::new(alloc),
        }
    }

    /// What is registered. Does not allocate.
    pub fn identifiers(&self) -> &[URI<'r>]
        ensures value { result.now ≡ self.now }
        ensures distinct { AreDistinct self.now }
    {
        &self.identifiers
    }

    /// Whether an equal identifier is registered. Does not allocate.
    pub fn contains(&self, identifier: &URI<'_>) -> bool
        ensures { result ≡ is_among self.now identifier.now }
    {
        self.identifiers.iter().any(|known| known == identifier)
    }

    /// Registers the identifier after the others.
    ///
    /// Fails with [`Taken`](RegistryError::Taken) if an equal one is registered, even if memory has
    /// run out, or with [`Memory`](RegistryError::Memory) if memory runs out. After an error the
    /// registry is unchanged, and the identifier is dropped.
    pub fn insert(&mut self, identifier: URI<'r>) -> Result<(), RegistryError>
        ensures added { OnOk result (self.new ≡ self.old ++ identifier.entry ∷ []) }
        ensures unchanged { OnErr result (self.new ≡ self.old) }
        ensures taken { is_among self.old identifier.entry ≡ true → result ≡ Err Taken }
        ensures free { is_among self.old identifier.entry ≡ false → (result ≡ Ok tt) ⊎ (result ≡ Err Memory) }
    {
        if self.contains(&identifier) {
            return Err(RegistryError::Taken);
        }
        self.identifiers.push(identifier)?;
        Ok(())
    }
}
