//! `uri help` and `uri --version`: the commands, one of them, and the version.

ghost use Rattle.std.specs.Prelude.{OnOk};
ghost use Rattle.std.specs.Io.KnownBytes.{Appends};
ghost use Rattle.uri_commands.specs.Help as help;
ghost use Rattle.uri_commands.specs.Output as spec;

use crate::commands::topic;
use crate::failure::Failure;
use crate::topic::Topic;
use std::io;
use std::io::Write;

pub static ABOUT: Topic = (
    "help",
    "\
Prints the commands and options, or more on one of them.

Usage: uri help, uri -h, uri --help
       uri help COMMAND, uri COMMAND --help, uri COMMAND -h
       uri help OPTION
       uri --version, uri -V

Use it to look up a command. After a command, --help asks for help only if it is
the only other word. Otherwise it is input, and so is what follows --.

Options stand before the command or after it, in any order, but before its
input. -- ends them, so that input may be spelled as an option.

Exit status: 0 on success, 2 on a usage error. Every command ends with 1 if
memory runs out, a read or a write fails, or an argument is not UTF-8.

Example:
    uri decode --help | head -n 1
    uri parse -- --help
    uri normalize --lines < /dev/null
prints
    Prints the bytes that a component stands for.
    --help
    path=--help
",
);

/// What `uri help` prints.
const SUMMARY: &str = "\
uri reads, compares, edits and resolves URIs and references (RFC 3986).
Usage: uri [OPTION..] COMMAND TEXT..     More, with an example: uri help COMMAND
Read      parse TEXT              the reference, then each of its components
          tail TEXT               the same of a path, query and fragment alone
          get PART,.. TEXT        components, the origin, or the path of a file
          pairs, pair NAME TEXT   the query's pairs; the decoded value of one
Compare   equal A B               equal or different
          within BASE URI         status 0 if URI is below BASE, 3 if not
          host-within DOMAIN REF  status 0 if the host is in DOMAIN, 3 if not
          audit TEXT              agree, or why other readers may disagree
Make      normalize TEXT          the normal form
          key TEXT                bytes that sort, and are equal, as references
          resolve BASE REF        the target of the reference
          relativize BASE URI     the reference that leads from BASE to URI
          edit TEXT EDIT..        the reference with components or pairs changed
          file PATH               the URI of a file
Escape    escape TEXT             any text as a reference
          encode KIND TEXT        any text as one component
          decode TEXT             the bytes that a component stands for
Options   --json                  parse: an object
          --quiet                 parse, equal: the status alone
          --explain               parse, resolve: where the input is wrong
          --drop-default-port     normalize: without the scheme's default port
          --trim                  escape: without white space or <> around it
Lines     --lines                 the command on each line of standard input
          --column K, --append    on its K-th field; adds the result to the line
          --align, --null, -0     a line for each; lines that end with NUL
Other     help, --version         short: -h, -V; also COMMAND --help
Examples  uri get host https://example.com/a
          uri --lines normalize < links | sort -u
";

/// The version of the library and the program, and the kit that its proofs were made with.
const VERSION: &str = "\
uri 0.4.0
rattle-kit-13f logic dac8208d650f15bf
";

/// Prints the version.
pub fn version<O: Write>(out: &mut O) -> io::Result<()>
    ensures { OnOk result (Appends (O.contents out.old) (O.contents out.new) help.version) }
{
    out.write_all(VERSION.as_bytes())
}

/// Prints the commands and the options.
pub fn help<O: Write>(out: &mut O) -> io::Result<()>
    ensures { OnOk result (Appends (O.contents out.old) (O.contents out.new) help.summary) }
{
    out.write_all(SUMMARY.as_bytes())
}

/// Prints the page on the command or the option of this name.
pub fn help_on<O: Write>(name: &str, out: &mut O) -> Result<(), Failure>
    ensures { spec.Does (spec.HelpsOn name.now) (O.contents out.old) (O.contents out.new) result }
{
    let mut place = 0;
    'topics: while let Some((topic, page)) = topic(place) {
        if *topic == name {
            return Ok(out.write_all(page.as_bytes())?);
        }
        place += 1;
    }
    Err(Failure::Usage)
}
