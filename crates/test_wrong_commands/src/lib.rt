//! Promises of the program's commands: each function runs one. `must-fail` has wrong bodies, as in
//! `test_wrong_texts`.
#![tactic(auto)]

ghost use Rattle.std.specs.Prelude.{◌≡◌, ◌∷◌, [], Some, codes};
ghost use Rattle.test_wrong_commands.specs.Lines.{aligned, appended, of_lines, of_second_fields};
ghost use Rattle.uri_commands.specs.Help.{summary, version};
ghost use Rattle.uri_commands.specs.Output as spec;
ghost use Rattle.uri_commands.specs.Tasks.{LinesEndWith};
ghost use Rattle.uri_commands.specs.declared.get.Part.TheVariants as part;

use std::alloc::Global;
use std::io::{BufRead, Read, Write};
use uri_commands::{run, run_with_input};

/// Prints the components of a reference.
pub fn print_components<O: Write, E: Write>(
    alloc: Global,
    text: &str,
    out: &mut O,
    err: &mut E,
) -> u8
    ensures { spec.Ends (spec.Parses text.now) (O.contents out.old) (O.contents out.new) result }
{
    run(alloc, &["parse", "--", text], out, err)
}

/// Prints a reference as a JSON object.
pub fn print_object<O: Write, E: Write>(alloc: Global, text: &str, out: &mut O, err: &mut E) -> u8
    ensures { spec.Ends (spec.ParsesJson text.now) (O.contents out.old) (O.contents out.new) result }
{
    run(alloc, &["--json", "parse", "--", text], out, err)
}

/// Prints the port of a reference.
pub fn print_port<O: Write, E: Write>(alloc: Global, text: &str, out: &mut O, err: &mut E) -> u8
    ensures { spec.Ends (spec.Gets part.Port text.now) (O.contents out.old) (O.contents out.new) result }
{
    run(alloc, &["get", "--", "port", text], out, err)
}

/// Prints the normal form of a reference.
pub fn print_normal_form<O: Write, E: Write>(
    alloc: Global,
    text: &str,
    out: &mut O,
    err: &mut E,
) -> u8
    ensures { spec.Ends (spec.Normalizes text.now) (O.contents out.old) (O.contents out.new) result }
{
    run(alloc, &["normalize", "--", text], out, err)
}

/// Prints why readers may disagree on a reference.
pub fn print_audit<O: Write, E: Write>(alloc: Global, text: &str, out: &mut O, err: &mut E) -> u8
    ensures { spec.Ends (spec.Audits text.now) (O.contents out.old) (O.contents out.new) result }
{
    run(alloc, &["audit", "--", text], out, err)
}

/// Prints the sort key of a reference.
pub fn print_key<O: Write, E: Write>(alloc: Global, text: &str, out: &mut O, err: &mut E) -> u8
    ensures { spec.Ends (spec.Keys text.now) (O.contents out.old) (O.contents out.new) result }
{
    run(alloc, &["key", "--", text], out, err)
}

/// Prints the normal form of a reference without a port that is the scheme's default one.
pub fn print_without_default_port<O: Write, E: Write>(
    alloc: Global,
    text: &str,
    out: &mut O,
    err: &mut E,
) -> u8
    ensures { spec.Ends (spec.NormalizesPort text.now) (O.contents out.old) (O.contents out.new) result }
{
    run(
        alloc,
        &["normalize", "--drop-default-port", "--", text],
        out,
        err,
    )
}

/// Prints whether two references are equal.
pub fn print_equality<O: Write, E: Write>(
    alloc: Global,
    left: &str,
    right: &str,
    out: &mut O,
    err: &mut E,
) -> u8
    ensures { spec.Ends (spec.Compares left.now right.now) (O.contents out.old) (O.contents out.new) result }
{
    run(alloc, &["equal", "--", left, right], out, err)
}

/// Prints the target of a reference against a base.
pub fn print_target<O: Write, E: Write>(
    alloc: Global,
    base: &str,
    text: &str,
    out: &mut O,
    err: &mut E,
) -> u8
    ensures { spec.Ends (spec.Resolves base.now text.now) (O.contents out.old) (O.contents out.new) result }
{
    run(alloc, &["resolve", "--", base, text], out, err)
}

/// Prints the normal form of a reference, and reads nothing.
pub fn print_normal_form_unread<I: Read, O: Write, E: Write>(
    alloc: Global,
    text: &str,
    input: &mut I,
    out: &mut O,
    err: &mut E,
) -> u8
    ensures ends { spec.Ends (spec.Normalizes text.now) (O.contents out.old) (O.contents out.new) result }
    ensures unread { I.remaining input.new ≡ I.remaining input.old }
{
    run_with_input(alloc, &["normalize", "--", text], input, out, err)
}

/// Checks that a URI is below a base. Does not allocate, so there is always an answer.
pub fn check_below<O: Write, E: Write>(
    alloc: Global,
    base: &str,
    text: &str,
    out: &mut O,
    err: &mut E,
) -> u8
    ensures { spec.Gives (spec.Within base.now text.now) (O.contents out.old) (O.contents out.new) result }
{
    run(alloc, &["within", "--", base, text], out, err)
}

/// Prints the normal form of each line of the input.
pub fn print_normal_forms<I: BufRead, O: Write, E: Write>(
    alloc: Global,
    input: &mut I,
    out: &mut O,
    err: &mut E,
) -> u8
    ensures { LinesEndWith of_lines (codes "normalize" ∷ []) (I.remaining input.old) (I.remaining input.new) (O.contents out.old) (O.contents out.new) result }
{
    run_with_input(alloc, &["--lines", "normalize"], input, out, err)
}

/// Prints each line of the input with the normal form in its place, also an empty one.
pub fn replace_by_normal_forms<I: BufRead, O: Write, E: Write>(
    alloc: Global,
    input: &mut I,
    out: &mut O,
    err: &mut E,
) -> u8
    ensures { LinesEndWith aligned (codes "normalize" ∷ []) (I.remaining input.old) (I.remaining input.new) (O.contents out.old) (O.contents out.new) result }
{
    run_with_input(alloc, &["--lines", "--align", "normalize"], input, out, err)
}

/// Prints each line of the input with the normal form after it.
pub fn append_normal_forms<I: BufRead, O: Write, E: Write>(
    alloc: Global,
    input: &mut I,
    out: &mut O,
    err: &mut E,
) -> u8
    ensures { LinesEndWith appended (codes "normalize" ∷ []) (I.remaining input.old) (I.remaining input.new) (O.contents out.old) (O.contents out.new) result }
{
    run_with_input(
        alloc,
        &["--lines", "--append", "normalize"],
        input,
        out,
        err,
    )
}

/// Prints each line of the input with the normal form in the place of its second field.
pub fn replace_second_fields<I: BufRead, O: Write, E: Write>(
    alloc: Global,
    input: &mut I,
    out: &mut O,
    err: &mut E,
) -> u8
    ensures { LinesEndWith of_second_fields (codes "normalize" ∷ []) (I.remaining input.old) (I.remaining input.new) (O.contents out.old) (O.contents out.new) result }
{
    run_with_input(
        alloc,
        &["--lines", "--column", "2", "normalize"],
        input,
        out,
        err,
    )
}

/// Prints the normal form of no line, since `run` has an empty input.
pub fn print_no_normal_forms<O: Write, E: Write>(alloc: Global, out: &mut O, err: &mut E) -> u8
    ensures { LinesEndWith of_lines (codes "normalize" ∷ []) (Some []) (Some []) (O.contents out.old) (O.contents out.new) result }
{
    run(alloc, &["--lines", "normalize"], out, err)
}

/// Prints nothing for the lines of the input, and reads none, since no task has this name.
pub fn refuse_task<I: Read, O: Write, E: Write>(
    alloc: Global,
    input: &mut I,
    out: &mut O,
    err: &mut E,
) -> u8
    ensures { LinesEndWith of_lines (codes "tail" ∷ []) (I.remaining input.old) (I.remaining input.new) (O.contents out.old) (O.contents out.new) result }
{
    run_with_input(alloc, &["--lines", "tail"], input, out, err)
}

/// Prints the page on `parse`.
pub fn print_page<O: Write, E: Write>(alloc: Global, out: &mut O, err: &mut E) -> u8
    ensures { spec.Ends (spec.HelpsOn (codes "parse")) (O.contents out.old) (O.contents out.new) result }
{
    run(alloc, &["help", "parse"], out, err)
}

/// Prints the page on `parse`, as the only other word asks for help.
pub fn print_page_after_name<O: Write, E: Write>(alloc: Global, out: &mut O, err: &mut E) -> u8
    ensures { spec.Ends (spec.HelpsOn (codes "parse")) (O.contents out.old) (O.contents out.new) result }
{
    run(alloc, &["parse", "--help"], out, err)
}

/// Prints `--help` as a reference, since it isn't the only other word.
pub fn print_help_as_input<O: Write, E: Write>(alloc: Global, out: &mut O, err: &mut E) -> u8
    ensures { spec.Ends (spec.Parses (codes "--help")) (O.contents out.old) (O.contents out.new) result }
{
    run(alloc, &["parse", "--", "--help"], out, err)
}

/// Prints the commands.
pub fn print_commands<O: Write, E: Write>(alloc: Global, out: &mut O, err: &mut E) -> u8
    ensures { spec.Ends (spec.PrintsBytes summary) (O.contents out.old) (O.contents out.new) result }
{
    run(alloc, &["-h"], out, err)
}

/// Prints the version by the short word.
pub fn print_version_shortly<O: Write, E: Write>(alloc: Global, out: &mut O, err: &mut E) -> u8
    ensures { spec.Ends (spec.PrintsBytes version) (O.contents out.old) (O.contents out.new) result }
{
    run(alloc, &["-V"], out, err)
}

/// Prints the version.
pub fn print_version<O: Write, E: Write>(alloc: Global, out: &mut O, err: &mut E) -> u8
    ensures { spec.Ends (spec.PrintsBytes version) (O.contents out.old) (O.contents out.new) result }
{
    run(alloc, &["--version"], out, err)
}

/// Runs no command, which is a usage error.
pub fn refuse_no_command<O: Write, E: Write>(alloc: Global, out: &mut O, err: &mut E) -> u8
    ensures { spec.Gives spec.IsUnknown (O.contents out.old) (O.contents out.new) result }
{
    run(alloc, &[], out, err)
}
