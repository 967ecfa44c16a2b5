//! The commands of the program `uri`, by their words: each reads texts as URIs or their parts, and
//! prints what they hold.
//!
//! They are a library, which the tests of the program and the jobs of the benchmark call.
#![tactic(auto)]

ghost use Rattle.std.specs.Prelude.{◌≡◌, ◌≤◌, ◌∷◌, [], IfOk, MatchResult, Some, false, map};
ghost use Rattle.uri_commands.specs.Output as spec;
ghost use Rattle.uri_commands.specs.Tasks.{CommandEnds, ProgramEnds};

mod audit;
mod columns;
mod commands;
mod decode;
mod edit;
mod encode;
mod equal;
mod escape;
mod explain;
mod failure;
mod file;
mod get;
mod help;
pub mod internal;
mod json;
mod key;
pub mod laws;
mod lines;
mod normalize;
mod options;
mod pair;
mod pairs;
mod parse;
mod pending;
mod print;
mod quiet;
mod relativize;
mod resolve;
mod tail;
mod topic;
mod within;

use commands::run_texts;
use explain::explain;
use failure::Failure;
use lines::lines;
use options::{Mode, Options, split_options};
use pending::send;
use std::alloc::Global;
use std::io;
use std::io::{Read, Write};

/// Runs the command in `words`, which follow the program's name, with an empty input, as
/// [`run_with_input`] does.
pub fn run<O: Write, E: Write>(alloc: Global, words: &[&str], out: &mut O, err: &mut E) -> u8
    ensures bound { result ≤ 3 }
    ensures ends { ProgramEnds (map (λ w. w.now) words.now) (Some []) (Some []) (O.contents out.old) (O.contents out.new) result }
{
    run_with_input(alloc, words, &mut io::empty(), out, err)
}

/// Runs the command in `words`, which follow the program's name, and returns the exit status:
///
/// - 0 on success;
/// - 1 if a text is rejected, memory runs out, or a read or a write fails: `err` gets a line that says
///   why, or one for each rejected line of the input, but nothing if nobody reads the output any more;
///   with `--explain` it gets three lines for each rejected text;
/// - 2 on a usage error: `err` gets two lines on the usage;
/// - 3 if `get` finds no such part, `pairs` no query, `pair` no such pair, `--quiet equal` two references
///   that differ, or `within` or `host-within` an input that is not within. Nothing is written.
///
/// With `--quiet` nothing is written about rejected texts. Only `--lines` reads the input. Without it the
/// output is put together in memory, and written to `out` once it is whole.
#[tactic(auto, using(crate::proofs::RunLemmas::asked_for, crate::proofs::RunLemmas::asked_nothing))]
pub fn run_with_input<I: Read, O: Write, E: Write>(
    alloc: Global,
    words: &[&str],
    input: &mut I,
    out: &mut O,
    err: &mut E,
) -> u8
    ensures bound { result ≤ 3 }
    ensures ends { ProgramEnds (map (λ w. w.now) words.now) (I.remaining input.old) (I.remaining input.new) (O.contents out.old) (O.contents out.new) result }
{
    let (options, name, texts) = split_options(words);
    match name {
        Some(name) => run_command(alloc, options, name, texts, input, out, err),
        None => status_of(options, "", texts, Err(Failure::Usage), err),
    }
}

/// Runs the command of this name, on these texts, with these options.
#[tactic(auto, using(crate::proofs::RunLemmas::lines_ended, crate::proofs::RunLemmas::answer_ended))]
fn run_command<I: Read, O: Write, E: Write>(
    alloc: Global,
    options: Options,
    name: &str,
    texts: &[&str],
    input: &mut I,
    out: &mut O,
    err: &mut E,
) -> u8
    ensures bound { result ≤ 3 }
    ensures ends { CommandEnds options (name.now ∷ map (λ w. w.now) texts.now) (I.remaining input.old) (I.remaining input.new) (O.contents out.old) (O.contents out.new) result }
{
    if options.reads_lines {
        let result = lines(alloc, options, name, texts, input, out, err);
        return status_of(options, name, texts, result, err);
    }
    let result = print_answer(alloc, options, name, texts, out);
    status_of(options, name, texts, result, err)
}

/// Runs the command of this name on these texts, prints its output once it is whole, and returns the status, 0.
#[tactic(auto, using(crate::proofs::RunLemmas::nothing_done, crate::proofs::RunLemmas::written_whole, crate::proofs::RunLemmas::written_partly, crate::proofs::RunLemmas::nothing_found, crate::proofs::RunLemmas::found_at_once))]
fn print_answer<O: Write>(
    alloc: Global,
    options: Options,
    name: &str,
    texts: &[&str],
    out: &mut O,
) -> Result<u8, Failure>
    ensures does { spec.DoesAtOnce (spec.Answers options (name.now ∷ map (λ w. w.now) texts.now)) (O.contents out.old) (O.contents out.new) result }
    ensures finds { spec.may_print options (name.now ∷ map (λ w. w.now) texts.now) ≡ false →
        spec.FindsAtOnce (spec.Answers options (name.now ∷ map (λ w. w.now) texts.now)) (O.contents out.old) (O.contents out.new) result }
{
    let mut printed = Vec::new(alloc);
    if let Err(failure) = run_texts(alloc, options, name, texts, &mut printed) {
        return Err(failure.in_memory());
    }
    send(&mut printed, out)?;
    Ok(0)
}

/// The status of a command's result. A failure is reported on `err`.
fn status_of<E: Write>(
    options: Options,
    name: &str,
    texts: &[&str],
    answer: Result<u8, Failure>,
    err: &mut E,
) -> u8
    requires { IfOk answer (λ status. status ≤ 3) }
    ensures bound { result ≤ 3 }
    ensures is { MatchResult answer (λ status. result ≡ status) (λ failure. result ≡ spec.exit_status (spec.answer_of failure)) }
{
    match answer {
        Ok(status) => status,
        Err(failure) => {
            // The status reports a failure that can't be written either.
            let _ = report(options, name, texts, &failure, err);
            failure.status()
        }
    }
}

/// Reports a failure, except one of status 3, a closed pipe, and with `--quiet` one of status 1 that
/// doesn't end the work on many lines.
fn report<E: Write>(
    options: Options,
    name: &str,
    texts: &[&str],
    failure: &Failure,
    err: &mut E,
) -> io::Result<()> {
    match failure.status() {
        2 => writeln!(err, "{failure}"),
        1 if failure.is_closed_pipe() => Ok(()),
        1 if options.mode == Mode::Quiet && !options.reads_lines => Ok(()),
        1 if options.explains => explain(name, texts, failure, err),
        1 => writeln!(err, "{failure}"),
        _ => Ok(()),
    }
}

/// Reports on a line of `err` why the program's arguments can't be read, and returns the status, 1.
/// Each has to be UTF-8.
pub fn refuse_arguments<E: Write>(error: &io::Error, err: &mut E) -> u8
    ensures { result ≡ 1 }
{
    // The status reports a failure that can't be written either.
    let _ = match error.kind() {
        io::ErrorKind::InvalidData => writeln!(err, "an argument is not UTF-8 text"),
        _ => writeln!(err, "{error}"),
    };
    1
}
