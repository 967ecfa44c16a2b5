//! Lines of fields with tabs between them: which of them a command reads, and where its result stands in
//! the line that goes out.

ghost use Rattle.std.specs.Prelude.{◌≡◌, ◌<◌, ◌+◌, ◌++◌, ◌∷◌, [], MatchOption, OnOk};
ghost use Rattle.std.specs.Io.KnownBytes.{Appends};
ghost use Rattle.uriparse_text.specs.Cuts.{before};
ghost use Rattle.uri_commands.specs.Columns as spec;
ghost use Rattle.uri_commands.specs.Lines.{newline};

use crate::topic::Topic;
use std::io;
use std::io::Write;
use uriparse_text::internal::{split_at_delimiter, without_delimiter};

pub static ABOUT_ALIGN: Topic = (
    "--align",
    "\
Prints exactly one line for each line of standard input.

Usage: uri --lines --align COMMAND

Use it to join output and input, as paste does. The line is empty if the input
is rejected, or not within. Rejected lines are reported as without the option.
It goes with every command that --lines takes, except those with --quiet.

Exit status: 0 on success, 1 if a line is rejected or the work ends early, 2 on
a usage error.

Example:
    printf 'HTTP://a\\nb c\\n//d\\n' | uri --lines --align normalize 2>/dev/null
prints
    http://a/

    //d/
",
);

pub static ABOUT_COLUMN: Topic = (
    "--column",
    "\
Reads the K-th tab-separated field of each line.

Usage: uri --lines --column K COMMAND
       uri --lines --column K --append COMMAND

Use it for a column of a table. K counts from 1. It prints the line with the
result in the place of the field, or with --append after the last field. The
other fields stay as they are. equal reads the K-th field and the next, and its
result replaces both. get with several parts prints as many fields.

Exactly one line is printed for each. A rejected field gives an empty result,
and a line with too few fields is printed as it is; both are reported.

Exit status: 0 on success, 1 if a line is rejected or the work ends early, 2 on
a usage error.

Example:
    printf 'a\\thttp://h:8/x\\n' | uri --lines --column 2 --append get host,port
prints
    a\thttp://h:8/x\th\t8
",
);

pub static ABOUT_APPEND: Topic = (
    "--append",
    "\
Prints each line with the result after it, as one more field.

Usage: uri --lines --append COMMAND
       uri --lines --column K --append COMMAND

Use it to keep the input next to its result. A tab precedes the result, which is
the one for the whole line, or with --column for its K-th field. Rejected input
gives an empty result, and is reported. Exactly one line is printed for each.

Exit status: 0 on success, 1 if a line is rejected or the work ends early, 2 on
a usage error.

Example:
    printf 'HTTP://a\\n' | uri --lines --append normalize
prints
    HTTP://a\thttp://a/
",
);

pub static ABOUT_NULL: Topic = (
    "--null",
    "\
Ends lines with a NUL byte instead of a newline, in input and output.

Usage: uri --lines --null COMMAND
       uri --lines -0 COMMAND

Use it with sort -z, xargs -0 and find -print0. A newline is part of its line
then: escape makes %0A of it, and the other commands reject the line. Reports
still end with a newline. It goes with every command that --lines takes, and
with --align, --column and --append.

Exit status: 0 on success, 1 if a line is rejected or the work ends early, 2 on
a usage error.

Example:
    printf 'HTTP://a\\0HTTP://b\\0' | uri --lines --null normalize | tr '\\0' '\\n'
prints
    http://a/
    http://b/
",
);

/// Which fields of a line are read, and where the result stands.
#[derive(Clone, Copy)]
pub struct Columns {
    /// How many fields precede the text that is read, or `None` if the whole line is.
    pub first: Option<usize>,
    /// The result follows the last field. Else it takes the text's place.
    pub appends: bool,
}

/// The fields of a line: those before the text that is read, the text, and those after it.
#[derive(Clone, Copy)]
pub struct Fields<'l> {
    pub front: &'l [u8],
    pub text: &'l [u8],
    pub back: &'l [u8],
}

/// The first fields of a line, each with the tab that ends it, and the rest, or `None` if fewer fields
/// have one.
fn split_fields(line: &[u8], count: usize) -> Option<(&[u8], &[u8])>
    ensures { MatchOption result (spec.tabs line.now < count) (λ r. (line.now ≡ r.0.now ++ r.1.now) × spec.AreFields count r.0.now) }
{
    let mut rest = line;
    let mut left = count;
    'fields: while left > 0 {
        let (_, following) = split_at_delimiter(rest, b'\t');
        let Some(later) = without_delimiter(following) else {
            return None;
        };
        rest = later;
        left -= 1;
    }
    Some(line.split_at(line.len() - rest.len()))
}

/// Cuts a line around the text of so many fields that follows the first ones, or returns `None` if the
/// line has too few.
fn cut_line(line: &[u8], skipped: usize, width: usize) -> Option<Fields<'_>>
    requires { 0 < width }
    ensures { MatchOption result (spec.tabs line.now + 1 < skipped + width) (λ cut. spec.IsCut skipped width line.now cut.front.now cut.text.now cut.back.now) }
{
    let Some((front, rest)) = split_fields(line, skipped) else {
        return None;
    };
    let Some((begun, last)) = split_fields(rest, width - 1) else {
        return None;
    };
    let (field, _) = split_at_delimiter(last, b'\t');
    let (text, back) = rest.split_at(begun.len() + field.len());
    Some(Fields { front, text, back })
}

impl Columns {
    /// The whole line is the text, and the result takes its place.
    pub const WHOLE: Columns = Columns {
        first: None,
        appends: false,
    };

    /// Cuts a line around its text of so many fields, or returns `None` if the line has too few.
    pub fn cut(self, line: &[u8], width: usize) -> Option<Fields<'_>>
        requires { 0 < width }
        ensures { MatchOption result (spec.LacksFields self.first width line.now) (λ cut. spec.IsRead self.first width line.now cut.front.now cut.text.now cut.back.now) }
    {
        match self.first {
            Some(first) => cut_line(line, first, width),
            None => Some(Fields {
                front: b"",
                text: line,
                back: b"",
            }),
        }
    }
}

/// What precedes the first newline, and the first byte that ends lines: a command's result for a line.
pub fn first_line(output: &[u8], end: u8) -> &[u8]
    ensures { result.now ≡ before end (before newline output.now) }
{
    let (line, _) = split_at_delimiter(output, b'\n');
    let (line, _) = split_at_delimiter(line, end);
    line
}

/// Writes a line as it is, and the byte that ends it.
pub fn write_line<O: Write>(line: &[u8], end: u8, out: &mut O) -> io::Result<()>
    ensures { OnOk result (Appends (O.contents out.old) (O.contents out.new) (line.now ++ end ∷ [])) }
{
    out.write_all(line)?;
    out.write_all(&[end])
}

/// Writes the line that goes out: the line that was read with the first line of the output in the place
/// of its text, or after its last field.
pub fn write_row<O: Write>(
    cut: &Fields<'_>,
    appends: bool,
    output: &[u8],
    end: u8,
    out: &mut O,
) -> io::Result<()>
    ensures { OnOk result (Appends (O.contents out.old) (O.contents out.new) (spec.row appends cut.now.front.now cut.now.text.now cut.now.back.now (before end (before newline output.now)) ++ end ∷ [])) }
{
    out.write_all(cut.front)?;
    if appends {
        out.write_all(cut.text)?;
        out.write_all(cut.back)?;
        out.write_all(b"\t")?;
    }
    out.write_all(first_line(output, end))?;
    if !appends {
        out.write_all(cut.back)?;
    }
    out.write_all(&[end])
}
