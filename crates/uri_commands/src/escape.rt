//! `uri escape TEXT` and `uri --trim escape TEXT`: the text of a reference, made of any text.

ghost use Rattle.uri_commands.specs.Output as spec;

use crate::failure::Failure;
use crate::print::print_line;
use crate::topic::Topic;
use std::alloc::Global;
use std::io::Write;
use uriparse::{escape_invalid, trim_link};

pub static ABOUT: Topic = (
    "escape",
    "\
Prints any text as a reference, with escapes for what it can't have.

Usage: uri escape TEXT
       uri --trim escape TEXT
       uri --lines escape
       uri --lines --trim escape

Use it to mend links as people write them. Each byte that a reference can't have
where it stands becomes an escape: a space, a letter with an accent, a bracket
outside of an authority. A `%` without two hexadecimal digits becomes %25. The
rest stays, escapes too, so a reference stays as it is.

An authority keeps its `:`, `@`, `[` and `]`, so other commands still reject a
wrong host or port. Lines may be in any encoding; a carriage return becomes %0D.
To remove white space or brackets around a link see uri help --trim.

Exit status: 0 on success, 1 if TEXT is not UTF-8, 2 on a usage error.

Example:
    uri escape 'http://h/a b?q=100%#[x]'
prints
    http://h/a%20b?q=100%25#%5Bx%5D
",
);

pub static ABOUT_TRIM: Topic = (
    "--trim",
    "\
Removes white space and brackets around a link before it is escaped.

Usage: uri --trim escape TEXT
       uri --lines --trim escape

Use it for links in prose and mail (RFC 3986, appendix C). Removed are white
space at both ends, so also a carriage return at the end of a line; then one
pair of angle brackets with or without URL: after the first, and white space at
the ends of what they hold. One bracket alone stays, and is escaped.

Exit status: 0 on success, 1 if TEXT is not UTF-8, 2 on a usage error.

Example:
    uri --trim escape ' <URL:http://h/a b> '
prints
    http://h/a%20b
",
);

/// Prints the text with escapes for the bytes that a reference can't have where they stand.
#[tactic(auto, using(crate::proofs::OutputLemmas::escaped_out, crate::proofs::OutputLemmas::ended))]
pub fn escape<O: Write>(alloc: Global, text: &[u8], out: &mut O) -> Result<(), Failure>
    ensures { spec.Does (spec.Escapes text.now) (O.contents out.old) (O.contents out.new) result }
{
    let escaped = escape_invalid(alloc, text)?;
    print_line(&escaped, out)
}

/// Prints the text without what is round a link, with escapes for the bytes that a reference can't
/// have where they stand.
pub fn escape_link<O: Write>(alloc: Global, text: &[u8], out: &mut O) -> Result<(), Failure>
    ensures { spec.Does (spec.EscapesLink text.now) (O.contents out.old) (O.contents out.new) result }
{
    escape(alloc, trim_link(text), out)
}
