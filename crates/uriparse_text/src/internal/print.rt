//! Printing a value, whatever options the formatter has.
ghost use Rattle.std.specs.Prelude.{◌≡◌};
ghost use Rattle.std.specs.Fmt.{DisplaysOnOk, DisplaysStyledOnOk};
ghost use Rattle.uriparse_text.specs.Printing.{WritesStyled};

use std::fmt;
use std::fmt::Write;

/// A formatter as a writer: what it writes doesn't change the formatter's options.
struct Kept<'f, W> {
    f: &'f mut fmt::Formatter<W>,
}

impl<'f, W> Drop for Kept<'f, W> {
    fn drop(self)
        ensures { self.exit.0.now ≡ self.entry.f.now }
    {
        let Self { f: _ } = self;
    }
}

impl<W: fmt::Write> fmt::Write for Kept<'_, W> {
    ghost write_str_gives = { WritesStyled W.write_str_gives };

    fn write_str(&mut self, s: &str) -> fmt::Result {
        self.f.write_str(s)
    }
}

/// Writes what `{}` writes for the value. The formatter's options have no effect. Fails only if the
/// value's Display or the writer does. Does not allocate.
pub fn write_plain<W: fmt::Write, D: fmt::Display + Drop>(
    value: D,
    f: &mut fmt::Formatter<W>,
) -> fmt::Result
    ensures writes { DisplaysOnOk W.write_str_gives f.old result (D.output value) f.new }
    ensures styled { DisplaysStyledOnOk W.write_str_gives f.old result (D.output value) f.new }
{
    let mut kept = Kept { f };
    kept.write(value)
}
