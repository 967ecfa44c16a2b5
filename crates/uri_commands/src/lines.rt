//! `uri --lines COMMAND`: a command for each line of the standard input.

ghost use Rattle.std.specs.Prelude.{◌≡◌, ◌≢◌, ◌==◌, ℕ, List, [], ◌∷◌, ◌++◌, ◌<◌, ◌≤◌, All, Contains, IfErr, IfOk, IfSome, IsErr, IsOk, Ok, OnErr, OnOk, false, length, map, take, true};
ghost use Rattle.std.specs.Io.BufRead.{DropsThrough, ends_with_byte, first_piece, strip_last};
ghost use Rattle.std.specs.Io.Buffered.{reader_buffer, reader_inner, reader_remaining};
ghost use Rattle.std.specs.Io.KnownBytes.{Consumes, IsAtEnd};
ghost use Rattle.uriparse_text.specs.Cuts.{lacks};
ghost use Rattle.uri_commands.specs.Columns as spec;
ghost use Rattle.uri_commands.specs.Columns.{tab};
ghost use Rattle.uri_commands.specs.Lines.{lines_of};
ghost use Rattle.uri_commands.specs.Output.{Answer, AnswersLine, EndsWork, answer_of};
ghost use Rattle.uri_commands.specs.Outputs.{Gives, Prints, Puts, PutsOrStops, PutsSome, RunsOrStops, Sends, Writes, ended, fields, outcome_of, printed, status_of, worse};
ghost use Rattle.uri_commands.specs.Tasks.{LinesEnd};
ghost use Rattle.uri_commands.specs.declared.lines.Next.TheVariants.{End, LastLine};

use crate::columns::{Columns, first_line, write_line, write_row};
use crate::commands::Task;
use crate::explain::{explain_line, write_around};
use crate::failure::Failure;
use crate::options::Options;
use crate::pending::{Buffer, CAPACITY, flush, put};
use crate::topic::Topic;
use std::alloc::{AllocError, Global};
use std::io;
use std::io::{BufRead, BufReader, BufWriter, Read, Write};
use uriparse::path::MAX_SEGMENTS;
use uriparse_text::internal::{Is, first};

pub static ABOUT: Topic = (
    "--lines",
    "\
Runs the command on each line of standard input.

Usage: uri --lines parse
       uri --lines normalize
       uri --lines resolve BASE
       uri --lines relativize BASE
       uri --lines get PART[,PART..]
       uri --lines pair NAME
       uri --lines edit EDIT..
       uri --lines equal
       uri --lines within BASE
       uri --lines host-within DOMAIN
       uri --lines escape
       uri --lines --trim escape
       uri --lines --drop-default-port normalize
       uri --lines --quiet parse
       uri --lines --quiet equal
       uri --lines --explain parse
       uri --lines --explain resolve BASE

Use it for many links at once. It prints one line for each, in order; parse
prints one JSON object a line, and within and host-within print the lines that
are within, as grep does. A line is one input, or for equal two, separated by a
tab. Other commands don't take the option.

A rejected line prints nothing and is reported on standard error as
`line N: ERROR: TEXT`. The work goes on, and the status is 1 at the end. TEXT is
cut to 72 bytes around the error, and a byte that is not printable ASCII is
shown as a dot. The work ends early if memory runs out, or a read or a write
fails.

Lines are bytes of any length, and end with a newline alone. A carriage return
is part of its line: escape makes %0D of it, --trim removes it at an end, and
the other commands reject the line.

For a line of output for each line see uri help --align, and for lines of fields
uri help --column.

Exit status: 0 on success, 1 if a line is rejected or the work ends early, 2 on
a usage error, 3 with --quiet if no line is rejected and two references differ.

Example:
    printf '%s\\n' 'http://a/x?q' '/y' '//b' | uri --lines get host
prints
    a

    b
",
);

/// The outcome of a line, the worst last.
#[derive(Clone, Copy)]
enum Outcome {
    Done,
    /// Two references differ, which the status alone reports.
    Different,
    Rejected,
}

impl Outcome {
    /// The outcome of a line for which the task fails so.
    fn of(failure: &Failure) -> Outcome
        ensures { result ≡ outcome_of (answer_of failure.now) }
    {
        match failure {
            Failure::Absent | Failure::Different | Failure::Outside => Outcome::Different,
            _ => Outcome::Rejected,
        }
    }

    /// The worse of two outcomes.
    fn or(self, other: Outcome) -> Outcome
        ensures { result ≡ worse self other }
    {
        match (self, other) {
            (Outcome::Done, other) => other,
            (Outcome::Different, Outcome::Rejected) => Outcome::Rejected,
            (Outcome::Different, _) => Outcome::Different,
            (Outcome::Rejected, _) => Outcome::Rejected,
        }
    }

    /// The status of work whose worst outcome this is.
    fn status(self) -> u8
        ensures bound { result ≤ 3 }
        ensures status { result ≡ status_of self }
    {
        match self {
            Outcome::Done => 0,
            Outcome::Different => 3,
            Outcome::Rejected => 1,
        }
    }
}

/// What an input has next.
#[derive(Clone, Copy, PartialEq, Eq)]
pub enum Next {
    /// A line, and the byte that ends it.
    Line,
    /// The last line, which no such byte ends: the input has ended.
    LastLine,
    /// No line: the input has ended.
    End,
}

/// Removes the byte that ends a line, if the bytes end with it, and returns what they are.
fn drop_end(line: &mut Vec<u8>, end: u8) -> Next
    ensures line { line.new.items ≡ strip_last end line.old.items }
    ensures end { result ≡ End → line.old.items ≡ [] }
    ensures some { result ≢ End → 0 < length line.old.items }
    ensures last { result ≡ LastLine → ends_with_byte end line.old.items ≡ false }
{
    let count = line.len();
    if count == 0 {
        return Next::End;
    }
    if line[count - 1] != end {
        return Next::LastLine;
    }
    line.truncate(count - 1);
    Next::Line
}

/// Appends the bytes before this place to the buffer. The byte there counts as if it were appended
/// too, so the buffer grows as it does with `read_until`, which appends the byte that ends the line.
fn append_front(held: &[u8], offset: usize, line: &mut Vec<u8>) -> Result<(), AllocError>
    requires { offset ≤ length held.now }
    ensures ok { OnOk result (line.new.items ≡ line.old.items ++ take offset held.now) }
    ensures err { OnErr result (line.new.items ≡ line.old.items) }
{
    line.reserve(held.len().min(offset.saturating_add(1)))?;
    line.extend_from_slice(&held[..offset])
}

/// Reads the next line into the buffer, without the byte that ends it, and returns what there was. After
/// the last line, if no such byte ends it, the input has ended and need not be read again.
pub fn read_line<I: BufRead>(input: &mut I, line: &mut Vec<u8>, end: u8) -> io::Result<Next>
    ensures line { OnOk result (IfSome (I.remaining input.old) (λ bytes. line.new.items ≡ first_piece end bytes)) }
    ensures rest { OnOk result (DropsThrough (I.remaining input.old) (I.remaining input.new) end) }
    ensures end { result ≡ Ok End → IsAtEnd (I.remaining input.old) }
    ensures some { IfOk result (λ next. next ≢ End → IfSome (I.remaining input.old) (λ bytes. 0 < length bytes)) }
    ensures last { result ≡ Ok LastLine → IfSome (I.remaining input.old) (λ _. IsAtEnd (I.remaining input.new)) }
{
    line.clear();
    input.read_until(end, line)?;
    Ok(drop_end(line, end))
}

/// What is done with each line.
#[derive(Drop)]
struct Work<'w> {
    alloc: Global,
    explains: bool,
    task: Task<'w>,
    /// A line goes out for each line, with these columns.
    columns: Option<Columns>,
    /// How many fields the task reads.
    width: usize,
    /// How many fields the task prints.
    fields: usize,
    /// The byte that ends lines.
    end: u8,
}

/// What the work on a line uses and the next line can use again.
#[derive(Drop)]
struct Buffers {
    /// Normal forms and targets are put together here.
    form: Vec<u8>,
    /// What the task prints, if it goes out as part of a row.
    result: Buffer,
    /// What goes out for the line.
    printed: Buffer,
}

/// Reports a rejected line: its number, the error, and the line around this place. If `explains` is
/// set and the line is not a reference, three lines show where it is wrong.
fn report<E: Write>(
    explains: bool,
    number: u64,
    failure: &Failure,
    line: &[u8],
    offset: usize,
    err: &mut E,
) -> io::Result<()> {
    if explains && explain_line(number, line, err)? {
        return Ok(());
    }
    write!(err, "line {number}: {failure}")?;
    if failure.is_too_long() {
        write!(err, " of {MAX_SEGMENTS} segments")?;
    }
    err.write_all(b": ")?;
    write_around(line, offset, err)
}

/// Does the task for a text: prints its answer to the buffer, and reports a rejection unless the task is
/// quiet. Fails if memory runs out.
#[tactic(auto, using(crate::proofs::OutputsLemmas::did_print, crate::proofs::OutputsLemmas::did_fail))]
fn answer_text<E: Write>(
    work: &Work<'_>,
    form: &mut Vec<u8>,
    output: &mut Buffer,
    number: u64,
    text: &[u8],
    err: &mut E,
) -> Result<Outcome, Failure>
    ensures ok { IfOk result (λ outcome. (a : Answer) × AnswersLine work.now.task text.now a × (outcome ≡ outcome_of a) × (output.new.bytes.items ≡ printed a)) }
    ensures err { IfErr result (λ f. EndsWork f) }
{
    output.bytes.clear();
    match work.task.run(work.alloc, form, text, output) {
        Ok(()) => Ok(Outcome::Done),
        Err(failure) if failure.ends_work() => Err(failure),
        Err(failure) => {
            let outcome = Outcome::of(&failure);
            if matches!(outcome, Outcome::Rejected) && !work.task.is_quiet() {
                let offset = work.task.fault_offset(text);
                // The status reports a rejection that can't be written either.
                let _ = report(work.explains, number, &failure, text, offset, err);
            }
            Ok(outcome)
        }
    }
}

/// Prints the result for a text of a row. A rejected text has as many fields, all empty.
fn print_result<E: Write>(
    work: &Work<'_>,
    form: &mut Vec<u8>,
    cells: &mut Buffer,
    number: u64,
    text: &[u8],
    err: &mut E,
) -> Result<Outcome, Failure>
    ensures ok { IfOk result (λ outcome. (a : Answer) × AnswersLine work.now.task text.now a × (outcome ≡ outcome_of a) × (cells.new.bytes.items ≡ fields work.now.fields a)) }
    ensures err { IfErr result (λ f. EndsWork f) }
{
    let outcome = answer_text(work, form, cells, number, text, err)?;
    if let Outcome::Rejected = outcome {
        cells.bytes.clear();
        cells.bytes.resize(work.fields.saturating_sub(1), b'\t')?;
    }
    Ok(outcome)
}

/// Does the task for the text of a line, and prints the line with the result in place. A line with too
/// few fields is reported, and printed as it is. Exactly one line is printed.
#[tactic(auto, using(crate::proofs::ColumnLemmas::row_lacks, crate::proofs::OutputsLemmas::after_clear))]
fn print_row<E: Write>(
    work: &Work<'_>,
    columns: Columns,
    buffers: &mut Buffers,
    number: u64,
    line: &[u8],
    err: &mut E,
) -> Result<Outcome, Failure>
    requires { 0 < work.now.width }
    ensures row { IfOk result (λ outcome. (row : List ℕ) × spec.IsRow (Gives work.now) work.now.end columns.first work.now.width columns.appends line.now row outcome × (buffers.new.printed.bytes.items ≡ row ++ work.now.end ∷ [])) }
    ensures one { (tab == work.now.end) ≡ false → lacks work.now.end line.now ≡ true → OnOk result ((row : List ℕ) × (lacks work.now.end row ≡ true) × (buffers.new.printed.bytes.items ≡ row ++ work.now.end ∷ [])) }
    ensures err { IfErr result (λ f. EndsWork f) }
{
    let Buffers {
        form,
        result,
        printed,
    } = buffers;
    printed.bytes.clear();
    let Some(cut) = columns.cut(line, work.width) else {
        // The status reports a rejection that can't be written either.
        let _ = report(false, number, &Failure::TooFewFields, line, 0, err);
        write_line(line, work.end, printed)?;
        return Ok(Outcome::Rejected);
    };
    let outcome = print_result(work, form, result, number, cut.text, err)?;
    write_row(&cut, columns.appends, &result.bytes, work.end, printed)?;
    Ok(outcome)
}

/// Cuts the output after its first line, and ends that with the byte that ends lines, unless it is empty.
#[tactic(auto, using(crate::proofs::OutputsLemmas::ended_cut, crate::proofs::OutputsLemmas::ended_none))]
fn end_line(output: &mut Vec<u8>, end: u8) -> Result<(), Failure>
    ensures ok { OnOk result (output.new.items ≡ ended end output.old.items) }
    ensures err { IfErr result (λ f. EndsWork f) }
{
    if output.is_empty() {
        return Ok(());
    }
    let count = first_line(output, end).len();
    output.truncate(count);
    Ok(output.push(end)?)
}

/// Does the task for a line, and prints the answer. Lines that don't end with a newline end with their
/// own byte in the output too.
#[tactic(auto, using(crate::proofs::OutputsLemmas::prints_ended, crate::proofs::OutputsLemmas::prints_plain))]
fn print_plain<E: Write>(
    work: &Work<'_>,
    buffers: &mut Buffers,
    number: u64,
    line: &[u8],
    err: &mut E,
) -> Result<Outcome, Failure>
    ensures ok { IfOk result (λ outcome. Prints work.now line.now buffers.new.printed.bytes.items outcome) }
    ensures err { IfErr result (λ f. EndsWork f) }
{
    let Buffers { form, printed, .. } = buffers;
    let outcome = answer_text(work, form, printed, number, line, err)?;
    if work.end != b'\n' {
        end_line(&mut printed.bytes, work.end)?;
    }
    Ok(outcome)
}

/// Does the work on a line, and prints what goes out for it.
fn print_line<E: Write>(
    work: &Work<'_>,
    buffers: &mut Buffers,
    number: u64,
    line: &[u8],
    err: &mut E,
) -> Result<Outcome, Failure>
    requires { 0 < work.now.width }
    ensures ok { IfOk result (λ outcome. Writes work.now.columns work.now line.now buffers.new.printed.bytes.items outcome) }
    ensures err { IfErr result (λ f. EndsWork f) }
{
    match work.columns {
        Some(columns) => print_row(work, columns, buffers, number, line, err),
        None => print_plain(work, buffers, number, line, err),
    }
}

/// Does the work on a line, and puts what goes out for it with the pending bytes, whole or not at all.
#[tactic(auto, using(crate::proofs::OutputsLemmas::sends_none))]
fn do_line<O: Write, E: Write>(
    work: &Work<'_>,
    buffers: &mut Buffers,
    number: u64,
    line: &[u8],
    pending: &mut Vec<u8>,
    out: &mut O,
    err: &mut E,
) -> Result<Outcome, Failure>
    requires { 0 < work.now.width }
    ensures ok { IfOk result (λ outcome. (bytes : List ℕ) × Writes work.now.columns work.now line.now bytes outcome × Sends (O.contents out.old) (O.contents out.new) pending.old.items pending.new.items bytes) }
    ensures err { IfErr result (λ f. EndsWork f × Sends (O.contents out.old) (O.contents out.new) pending.old.items pending.new.items []) }
{
    let outcome = print_line(work, buffers, number, line, err)?;
    put(&buffers.printed.bytes, pending, out)?;
    Ok(outcome)
}

/// Takes the next line, with the byte that ends it, from a reader that holds it whole, and copies it to
/// the empty buffer, without that byte. Returns whether the reader holds it; if not, nothing is taken.
/// The reader is not asked for more.
#[tactic(auto, using(crate::proofs::LineLemmas::held_line))]
fn take_whole<I: Read>(
    input: &mut BufReader<I>,
    line: &mut Vec<u8>,
    end: u8,
) -> Result<bool, AllocError>
    requires { line.old.items ≡ [] }
    ensures clean { All (λ b. b ≢ end) line.new.items }
    ensures line { result ≡ Ok true →
        Consumes (reader_remaining I.remaining input.old) (reader_remaining I.remaining input.new) (line.new.items ++ end ∷ []) }
    ensures nothing { result ≡ Ok false → input.new ≡ input.old }
    ensures held { result ≡ Ok false → All (λ b. b ≢ end) (reader_buffer input.old) }
    ensures unasked { reader_inner input.new ≡ reader_inner input.old }
{
    let held = input.buffer();
    let offset = first(&Is(end), held);
    if offset == held.len() {
        return Ok(false);
    }
    append_front(held, offset, line)?;
    input.consume(offset + 1);
    Ok(true)
}

/// Keeps the first error of several writes.
fn keep_first(written: &mut io::Result<()>, next: io::Result<()>)
    ensures first { IsErr written.old → written.new ≡ written.old }
    ensures next { IsOk written.old → written.new ≡ next }
{
    if written.is_ok() {
        *written = next;
    }
}

/// Reads the next line as [`read_line`] does. A line that the reader holds whole is taken at once, and
/// copied in one piece. If it holds no whole line, more input may be waited for, and what is pending is
/// written first. An error of that is kept, and the work goes on: what could not be written stays
/// pending, and is tried again when the buffer is full, or at the end.
#[tactic(auto, using(crate::proofs::LineLemmas::taken_line, crate::proofs::OutputsLemmas::sends_none))]
pub fn next_line<I: Read, O: Write>(
    input: &mut BufReader<I>,
    line: &mut Vec<u8>,
    end: u8,
    pending: &mut Vec<u8>,
    out: &mut O,
    written: &mut io::Result<()>,
) -> io::Result<Next>
    ensures line { OnOk result (IfSome (reader_remaining I.remaining input.old) (λ bytes. line.new.items ≡ first_piece end bytes)) }
    ensures rest { OnOk result (DropsThrough (reader_remaining I.remaining input.old) (reader_remaining I.remaining input.new) end) }
    ensures end { result ≡ Ok End → IsAtEnd (reader_remaining I.remaining input.old) }
    ensures some { IfOk result (λ next. next ≢ End → IfSome (reader_remaining I.remaining input.old) (λ bytes. 0 < length bytes)) }
    ensures last { result ≡ Ok LastLine → IfSome (reader_remaining I.remaining input.old) (λ _. IsAtEnd (reader_remaining I.remaining input.new)) }
    ensures unasked { Contains (reader_buffer input.old) end → (reader_inner input.new ≡ reader_inner input.old) × (pending.new ≡ pending.old) × (out.new ≡ out.old) }
    ensures contents { Sends (O.contents out.old) (O.contents out.new) pending.old.items pending.new.items [] }
    ensures kept { IsErr written.old → written.new ≡ written.old }
{
    line.clear();
    if take_whole(input, line, end)? {
        return Ok(Next::Line);
    }
    keep_first(written, flush(pending, out));
    read_line(input, line, end)
}

/// Does the work on each line, and returns the worst outcome. `written` gets the first error of a
/// write before a wait. An input of 2⁶⁴ - 2 lines is too large.
fn do_lines<I: Read, O: Write, E: Write>(
    work: &Work<'_>,
    input: &mut BufReader<I>,
    pending: &mut Vec<u8>,
    out: &mut O,
    written: &mut io::Result<()>,
    err: &mut E,
) -> Result<Outcome, Failure>
    requires { 0 < work.now.width }
    ensures kept { IsErr written.old → written.new ≡ written.old }
    ensures output { IfSome (reader_remaining I.remaining input.old) (λ bytes. PutsOrStops work.now bytes (O.contents out.old) (O.contents out.new) pending.old.items pending.new.items result) }
    ensures err { IfErr result (λ f. EndsWork f) }
{
    let mut worst = Outcome::Done;
    let mut line = Vec::new(work.alloc);
    let mut buffers = Buffers {
        form: Vec::new(work.alloc),
        result: Buffer::new(work.alloc),
        printed: Buffer::new(work.alloc),
    };
    'lines: for number in 1..u64::MAX {
        let next = match next_line(input, &mut line, work.end, pending, out, written) {
            Ok(next) => next,
            Err(error) => return Err(Failure::of_read(error, number)),
        };
        if let Next::End = next {
            return Ok(worst);
        }
        match do_line(work, &mut buffers, number, &line, pending, out, err) {
            Ok(outcome) => worst = worst.or(outcome),
            Err(failure) => return Err(failure.at_line(number)),
        }
        if let Next::LastLine = next {
            return Ok(worst);
        }
    }
    Err(Failure::Input(io::Error::from(io::ErrorKind::FileTooLarge).into()))
}

/// What was made, unless memory ran out for its buffer.
fn made<T>(buffered: io::Result<T>) -> Result<T, Failure>
    ensures ok { IfOk result (λ made. buffered ≡ Ok made) }
    ensures err { IfErr result (λ f. EndsWork f) }
{
    match buffered {
        Ok(made) => Ok(made),
        Err(_) => Err(Failure::Memory(AllocError)),
    }
}

/// Does the work on each line with buffered output, which is written even if the work ends early, and
/// returns the worst outcome. Of several errors the first is returned.
fn do_buffered<I: Read, O: Write, E: Write + Drop>(
    work: &Work<'_>,
    input: &mut BufReader<I>,
    out: &mut O,
    err: E,
) -> Result<Outcome, Failure>
    requires { 0 < work.now.width }
    ensures ok { IfOk result (λ worst. IfSome (reader_remaining I.remaining input.old) (λ bytes. Puts work.now (lines_of work.now.end bytes) (O.contents out.old) (O.contents out.new) [] [] worst)) }
    ensures stops { OnErr result (IfSome (reader_remaining I.remaining input.old) (λ bytes. (unsent : List ℕ) × PutsSome work.now (lines_of work.now.end bytes) (O.contents out.old) (O.contents out.new) [] unsent)) }
    ensures err { IfErr result (λ f. EndsWork f) }
{
    let mut pending = Vec::with_capacity(work.alloc, CAPACITY)?;
    let mut err = made(BufWriter::with_capacity(work.alloc, CAPACITY, err))?;
    let mut written = Ok(());
    let worst = do_lines(work, input, &mut pending, out, &mut written, &mut err);
    let finished = flush(&mut pending, out);
    // The status reports rejections that can't be written either.
    let _ = err.flush();
    written?;
    let worst = worst?;
    finished?;
    Ok(worst)
}

/// Does the task for each line of the input, and returns the status.
#[tactic(auto, using(crate::proofs::OutputsLemmas::cut_off, crate::proofs::OutputsLemmas::fresh_reader, crate::proofs::OutputsLemmas::ran))]
fn write_lines<I: Read, O: Write, E: Write + Drop>(
    alloc: Global,
    options: Options,
    task: Task<'_>,
    input: &mut I,
    out: &mut O,
    err: E,
) -> Result<u8, Failure>
    ensures bound { IfOk result (λ status. status ≤ 3) }
    ensures runs { IfSome (I.remaining input.old) (λ bytes. RunsOrStops task.entry options.columns options.end bytes (O.contents out.old) (O.contents out.new) result) }
{
    let work = Work {
        alloc,
        explains: options.explains,
        columns: options.columns,
        width: task.width(),
        fields: task.printed_fields(),
        end: options.end,
        task,
    };
    let mut input = made(BufReader::with_capacity(alloc, CAPACITY, input))?;
    Ok(do_buffered(&work, &mut input, out, err)?.status())
}

/// Runs the command of this name for each line of the input, and returns the status: 0, 1 if a
/// line was rejected, else 3 if a quiet comparison found different references.
///
/// Each line is one text, or two with a tab between them. Its bytes need not be UTF-8, and a `\r`
/// is a byte like any other. A rejected line is reported on `err`, and the work goes on; it ends
/// early only if memory runs out or a read or a write fails. Then the output is that of some first
/// lines, or a part from its start.
#[tactic(auto, using(crate::proofs::TaskLemmas::lines_run, crate::proofs::TaskLemmas::lines_unread))]
pub fn lines<I: Read, O: Write, E: Write>(
    alloc: Global,
    options: Options,
    name: &str,
    texts: &[&str],
    input: &mut I,
    out: &mut O,
    err: &mut E,
) -> Result<u8, Failure>
    ensures bound { IfOk result (λ status. status ≤ 3) }
    ensures lines { LinesEnd options (name.now ∷ map (λ w. w.now) texts.now) (I.remaining input.old) (I.remaining input.new) (O.contents out.old) (O.contents out.new) result }
{
    let task = Task::read(alloc, options, name, texts)?;
    write_lines(alloc, options, task, input, out, err)
}
