//! A value that is let go by one call.
ghost use Rattle.std.specs.Prelude.{◌≡◌};

/// A value whose destructor is one call for a function that holds it. A derived destructor is written
/// out for each part of a value, at each exit of such a function, and so is what is proved of it.
pub struct Held<T: Drop>(pub T);

impl<T: Drop> Held<T> {
    /// The value.
    #[inline(always)]
    pub fn take(self) -> T
        ensures { result ≡ self.0 }
    {
        let Held(value) = self;
        value
    }
}

impl<T: Drop> Drop for Held<T> {
    #[inline(always)]
    fn drop(self) {
        let Held(_value) = self;
    }
}
