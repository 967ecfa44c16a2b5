//! The table of the commands: the pages of `uri help NAME`, the words that each takes, and how it
//! runs on the texts among its words and on each line of an input.

ghost use Rattle.std.specs.Prelude.{◌≡◌, ◌<◌, ◌∷◌, [], IfSome, false, map, slice_get, true};
ghost use Rattle.std.specs.Option.{option_map};
ghost use Rattle.uri_commands.specs.Help.{topics};
ghost use Rattle.uri_commands.specs.Output as spec;
ghost use Rattle.uri_commands.specs.Outputs.{count_of, width_of};
ghost use Rattle.uri_commands.specs.declared.options.Mode.TheVariants.{Plain};
ghost use Rattle.uri_commands.specs.Tasks.{NamesEdit, NamesGet, Reads, Tasks, TasksAny, TasksNamed, TasksTo, takes_memory};

use crate::audit::{self, audit};
use crate::decode::{self, decode};
use crate::edit::{self, Step, edit, edit_line, read_edits};
use crate::encode::{self, encode};
use crate::equal::{self, equal, equal_pair, pair_fault_offset};
use crate::escape::{self, escape, escape_link};
use crate::failure::Failure;
use crate::file::{self, file, get_file};
use crate::get::{self, Part, get, get_or_empty, get_parts, read_parts};
use crate::help::{self, help, help_on, version};
use crate::json::{self, parse_json};
use crate::key::{self, key, key_with};
use crate::normalize::{self, normalize, normalize_port, normalize_with};
use crate::options::{Mode, Options};
use crate::pair::{self, pair, pair_or_empty};
use crate::pairs::{self, pairs};
use crate::parse::{self, parse};
use crate::quiet::{self, check, check_equal, check_pair};
use crate::relativize::{self, relativize, relativize_against};
use crate::resolve::{self, resolve, resolve_with};
use crate::tail::{self, tail};
use crate::topic::Topic;
use crate::within::{self, host_within, print_host_within, print_within, read_domain, within};
use crate::{columns, explain, lines};
use std::alloc::Global;
use std::io::Write;
use uriparse::{Host, URI, URIReference, URIView};

/// The topic of `uri help` with this index, or `None` after the last. A `match`, since the prover takes quadratic time for a
/// static table.
#[tactic(auto, unfolding(crate::specs::Help::topics))]
pub fn topic(place: usize) -> Option<&'static Topic>
    ensures bound { IfSome result (λ _. place < 29) }
    ensures topic { option_map (λ t. record { name = t.now.0.now; page = t.now.1.now }) result ≡ slice_get topics place }
{
    match place {
        0 => Some(&parse::ABOUT),
        1 => Some(&tail::ABOUT),
        2 => Some(&get::ABOUT),
        3 => Some(&pairs::ABOUT),
        4 => Some(&pair::ABOUT),
        5 => Some(&equal::ABOUT),
        6 => Some(&within::ABOUT),
        7 => Some(&within::ABOUT_HOST),
        8 => Some(&audit::ABOUT),
        9 => Some(&normalize::ABOUT),
        10 => Some(&key::ABOUT),
        11 => Some(&resolve::ABOUT),
        12 => Some(&relativize::ABOUT),
        13 => Some(&edit::ABOUT),
        14 => Some(&file::ABOUT),
        15 => Some(&escape::ABOUT),
        16 => Some(&encode::ABOUT),
        17 => Some(&decode::ABOUT),
        18 => Some(&help::ABOUT),
        19 => Some(&json::ABOUT),
        20 => Some(&quiet::ABOUT),
        21 => Some(&explain::ABOUT),
        22 => Some(&normalize::ABOUT_DROP_DEFAULT_PORT),
        23 => Some(&escape::ABOUT_TRIM),
        24 => Some(&lines::ABOUT),
        25 => Some(&columns::ABOUT_ALIGN),
        26 => Some(&columns::ABOUT_COLUMN),
        27 => Some(&columns::ABOUT_APPEND),
        28 => Some(&columns::ABOUT_NULL),
        _ => None,
    }
}

/// Whether `--explain` may precede the command of this name.
fn explains(mode: Mode, name: &str) -> bool
    ensures { result ≡ spec.explains mode name.now }
{
    match mode {
        Mode::Plain => matches!(name, "parse" | "resolve"),
        Mode::Json => name == "parse",
        _ => false,
    }
}

/// Whether `--explain` is absent, or may precede the command of this name.
fn may_explain(options: Options, name: &str) -> bool
    ensures { result ≡ spec.may_explain options (name.now ∷ []) }
{
    !options.explains || explains(options.mode, name)
}

/// Runs the command of this name on these texts.
pub fn run_texts<O: Write>(
    alloc: Global,
    options: Options,
    name: &str,
    texts: &[&str],
    out: &mut O,
) -> Result<(), Failure>
    ensures does { spec.Does (spec.Answers options (name.now ∷ map (λ w. w.now) texts.now)) (O.contents out.old) (O.contents out.new) result }
    ensures finds { spec.may_print options (name.now ∷ map (λ w. w.now) texts.now) ≡ false →
        spec.Finds (spec.Answers options (name.now ∷ map (λ w. w.now) texts.now)) result × (O.contents out.new ≡ O.contents out.old) }
{
    if !may_explain(options, name) || options.is_for_lines() {
        return Err(Failure::Usage);
    }
    run_any(alloc, options.mode, name, texts, out)
}

/// Runs the command of this name on the words that follow it.
fn run_any<O: Write>(
    alloc: Global,
    mode: Mode,
    name: &str,
    texts: &[&str],
    out: &mut O,
) -> Result<(), Failure>
    ensures does { spec.Does (spec.AnswersAny mode name.now (map (λ w. w.now) texts.now)) (O.contents out.old) (O.contents out.new) result }
    ensures finds { spec.prints mode name.now ≡ false →
        spec.Finds (spec.AnswersAny mode name.now (map (λ w. w.now) texts.now)) result × (O.contents out.new ≡ O.contents out.old) }
{
    match (mode, name) {
        (Mode::Plain, "edit") => run_edit(alloc, texts, out),
        _ => run_named(alloc, mode, name, texts, out),
    }
}

/// Makes the edits that follow a text.
fn run_edit<O: Write>(alloc: Global, texts: &[&str], out: &mut O) -> Result<(), Failure>
    ensures { spec.Does (spec.OnEdits (map (λ w. w.now) texts.now)) (O.contents out.old) (O.contents out.new) result }
{
    match texts {
        [text, edits @ ..] => edit(alloc, text, edits, out),
        [] => Err(Failure::Usage),
    }
}

/// Runs the command of this name, but not `edit`, on the words that follow it.
fn run_named<O: Write>(
    alloc: Global,
    mode: Mode,
    name: &str,
    texts: &[&str],
    out: &mut O,
) -> Result<(), Failure>
    ensures does { spec.Does (spec.AnswersTo mode name.now (map (λ w. w.now) texts.now)) (O.contents out.old) (O.contents out.new) result }
    ensures finds { spec.prints mode name.now ≡ false →
        spec.Finds (spec.AnswersTo mode name.now (map (λ w. w.now) texts.now)) result × (O.contents out.new ≡ O.contents out.old) }
{
    match texts {
        [] => run_one_word(mode, name, out),
        [text] => run_two_words(alloc, mode, name, text, out),
        [first, second] => run_three_words(alloc, mode, name, first, second, out),
        _ => Err(Failure::Usage),
    }
}

/// Runs the command that is this word alone.
fn run_one_word<O: Write>(mode: Mode, name: &str, out: &mut O) -> Result<(), Failure>
    ensures does { spec.Does (spec.AnswersTo mode name.now []) (O.contents out.old) (O.contents out.new) result }
    ensures finds { spec.prints mode name.now ≡ false →
        spec.Finds (spec.AnswersTo mode name.now []) result × (O.contents out.new ≡ O.contents out.old) }
{
    match (mode, name) {
        (Mode::Plain, "help") => Ok(help(out)?),
        (Mode::Plain, "--version") => Ok(version(out)?),
        _ => Err(Failure::Usage),
    }
}

/// Runs the command of this name on the word that follows it.
fn run_two_words<O: Write>(
    alloc: Global,
    mode: Mode,
    name: &str,
    text: &str,
    out: &mut O,
) -> Result<(), Failure>
    ensures does { spec.Does (spec.AnswersTo mode name.now (text.now ∷ [])) (O.contents out.old) (O.contents out.new) result }
    ensures finds { spec.prints mode name.now ≡ false →
        spec.Finds (spec.AnswersTo mode name.now (text.now ∷ [])) result × (O.contents out.new ≡ O.contents out.old) }
{
    match (mode, name) {
        (Mode::Plain, _) => run_plain(alloc, name, text, out),
        (Mode::Json, "parse") => parse_json(text.as_bytes(), out),
        (Mode::Quiet, "parse") => check(text.as_bytes()),
        (Mode::DropDefaultPort, "normalize") => normalize_port(alloc, text.as_bytes(), out),
        (Mode::Trim, "escape") => escape_link(alloc, text.as_bytes(), out),
        _ => Err(Failure::Usage),
    }
}

/// Runs the command of this name on the word that follows it, with `Mode::Plain`.
fn run_plain<O: Write>(alloc: Global, name: &str, text: &str, out: &mut O) -> Result<(), Failure>
    ensures does { spec.Does (spec.AnswersNamed name.now (text.now ∷ [])) (O.contents out.old) (O.contents out.new) result }
    ensures finds { spec.prints Plain name.now ≡ false →
        spec.Finds (spec.AnswersNamed name.now (text.now ∷ [])) result × (O.contents out.new ≡ O.contents out.old) }
{
    match name {
        "parse" => parse(alloc, text, out),
        "tail" => tail(alloc, text, out),
        "normalize" => normalize(alloc, text.as_bytes(), out),
        "key" => key(alloc, text.as_bytes(), out),
        "audit" => audit(text.as_bytes(), out),
        "decode" => decode(alloc, text.as_bytes(), out),
        "escape" => escape(alloc, text.as_bytes(), out),
        "pairs" => pairs(alloc, text.as_bytes(), out),
        "file" => file(alloc, text.as_bytes(), out),
        "help" => help_on(text, out),
        _ => Err(Failure::Usage),
    }
}

/// Runs the command of this name on the two words that follow it.
fn run_three_words<O: Write>(
    alloc: Global,
    mode: Mode,
    name: &str,
    first: &str,
    second: &str,
    out: &mut O,
) -> Result<(), Failure>
    ensures does { spec.Does (spec.AnswersTo mode name.now (first.now ∷ second.now ∷ [])) (O.contents out.old) (O.contents out.new) result }
    ensures finds { spec.prints mode name.now ≡ false →
        spec.Finds (spec.AnswersTo mode name.now (first.now ∷ second.now ∷ [])) result × (O.contents out.new ≡ O.contents out.old) }
{
    match (mode, name) {
        (Mode::Plain, _) => run_plain_on_two(alloc, name, first, second, out),
        (Mode::Quiet, "equal") => check_equal(first.as_bytes(), second.as_bytes()),
        _ => Err(Failure::Usage),
    }
}

/// Runs the command of this name on the two words that follow it, with `Mode::Plain`.
fn run_plain_on_two<O: Write>(
    alloc: Global,
    name: &str,
    first: &str,
    second: &str,
    out: &mut O,
) -> Result<(), Failure>
    ensures does { spec.Does (spec.AnswersNamed name.now (first.now ∷ second.now ∷ [])) (O.contents out.old) (O.contents out.new) result }
    ensures finds { spec.prints Plain name.now ≡ false →
        spec.Finds (spec.AnswersNamed name.now (first.now ∷ second.now ∷ [])) result × (O.contents out.new ≡ O.contents out.old) }
{
    match name {
        "get" => get_named(alloc, first, second, out),
        "equal" => equal(first.as_bytes(), second.as_bytes(), out),
        "resolve" => resolve(alloc, first.as_bytes(), second.as_bytes(), out),
        "relativize" => relativize(alloc, first.as_bytes(), second.as_bytes(), out),
        "encode" => encode(alloc, first, second.as_bytes(), out),
        "pair" => pair(alloc, first, second.as_bytes(), out),
        "within" => within(first.as_bytes(), second.as_bytes()),
        "host-within" => host_within(first, second.as_bytes()),
        _ => Err(Failure::Usage),
    }
}

/// Prints the path of a file, or the components of these names.
fn get_named<O: Write>(alloc: Global, names: &str, text: &str, out: &mut O) -> Result<(), Failure>
    ensures { spec.Does (spec.GetsNamed names.now text.now) (O.contents out.old) (O.contents out.new) result }
{
    match names {
        "file" => get_file(alloc, text.as_bytes(), out),
        _ => get(alloc, names, text.as_bytes(), out),
    }
}

/// What a command does with each line of the input.
#[derive(Drop)]
pub enum Task<'w> {
    /// Print the reference as a JSON object.
    Parse,
    /// Check the reference.
    Check,
    /// Print this part of the reference, or an empty line if it is absent.
    Get(Part),
    /// Print these parts of the reference, with tabs between them.
    GetParts(Vec<Part>),
    /// Print the reference's normal form.
    Normalize,
    /// Print the normal form without a port that is the scheme's default one.
    NormalizePort,
    /// Print the reference's sort key.
    Key,
    /// Print why readers may disagree on the reference.
    Audit,
    /// Print whether the line's two references are equal.
    Equal,
    /// Check that the line's two references are equal.
    CheckEqual,
    /// Print the target of the reference against this base.
    Resolve(URIView<'w>),
    /// Print the reference that leads from this base to the URI.
    Relativize(URI<'w>),
    /// Print the reference with these edits made.
    Edit(Vec<Step<'w>>),
    /// Print the value of the pair of this name, or an empty line if it is absent.
    Pair(&'w str),
    /// Print the line if its URI is below this base.
    Within(URIView<'w>),
    /// Print the line if its host is within this domain.
    HostWithin(Host<'w>),
    /// Print the text with escapes for what a reference can't have.
    Escape,
    /// Print the text with escapes, without what is round a link.
    EscapeLink,
}

impl<'w> Task<'w> {
    /// Reads a task from the words of the command. A base is read here, before any line. Only `get`,
    /// `relativize` and `edit` allocate.
    pub fn read(
        alloc: Global,
        options: Options,
        name: &str,
        texts: &[&'w str],
    ) -> Result<Task<'w>, Failure>
        ensures { Reads (takes_memory options.mode name.now) (Tasks options (name.now ∷ map (λ w. w.now) texts.now)) result }
    {
        let is_quiet = matches!(options.mode, Mode::Quiet);
        if !may_explain(options, name) || is_quiet && options.columns.is_some() {
            return Err(Failure::Usage);
        }
        Task::read_any(alloc, options.mode, name, texts)
    }

    /// The task of the command of this name with the words that follow it.
    fn read_any(
        alloc: Global,
        mode: Mode,
        name: &str,
        texts: &[&'w str],
    ) -> Result<Task<'w>, Failure>
        ensures { Reads (takes_memory mode name.now) (TasksAny mode name.now (map (λ w. w.now) texts.now)) result }
    {
        match (mode, name) {
            (Mode::Plain, "edit") => Task::read_edit(alloc, texts),
            _ => Task::read_named(alloc, mode, name, texts),
        }
    }

    /// The task of `edit` with these edits.
    #[tactic(auto, using(crate::proofs::TaskLemmas::reads_steps, crate::proofs::TaskLemmas::reads_no_steps))]
    fn read_edit(alloc: Global, words: &[&'w str]) -> Result<Task<'w>, Failure>
        ensures { Reads true (NamesEdit (map (λ w. w.now) words.now)) result }
    {
        Ok(Task::Edit(read_edits(alloc, words)?))
    }

    /// The task of the command of this name, but not `edit`, with the words that follow it.
    fn read_named(
        alloc: Global,
        mode: Mode,
        name: &str,
        texts: &[&'w str],
    ) -> Result<Task<'w>, Failure>
        ensures { Reads (takes_memory mode name.now) (TasksTo mode name.now (map (λ w. w.now) texts.now)) result }
    {
        match (mode, texts) {
            (_, []) => Task::read_one_word(mode, name),
            (Mode::Plain, [text]) => Task::read_two_words(alloc, name, text),
            _ => Err(Failure::Usage),
        }
    }

    /// The task of the command that is this word alone.
    fn read_one_word(mode: Mode, name: &str) -> Result<Task<'w>, Failure>
        ensures { Reads (takes_memory mode name.now) (TasksTo mode name.now []) result }
    {
        match (mode, name) {
            (Mode::Plain, "parse") => Ok(Task::Parse),
            (Mode::Plain, "normalize") => Ok(Task::Normalize),
            (Mode::Plain, "key") => Ok(Task::Key),
            (Mode::Plain, "audit") => Ok(Task::Audit),
            (Mode::Plain, "equal") => Ok(Task::Equal),
            (Mode::Plain, "escape") => Ok(Task::Escape),
            (Mode::Json, "parse") => Ok(Task::Parse),
            (Mode::Quiet, "parse") => Ok(Task::Check),
            (Mode::Quiet, "equal") => Ok(Task::CheckEqual),
            (Mode::Trim, "escape") => Ok(Task::EscapeLink),
            (Mode::DropDefaultPort, "normalize") => Ok(Task::NormalizePort),
            _ => Err(Failure::Usage),
        }
    }

    /// The task of the command of this name with the word that follows it.
    #[tactic(auto, using(crate::proofs::TaskLemmas::resolves, crate::proofs::TaskLemmas::relativizes, crate::proofs::TaskLemmas::not_relativized, crate::proofs::TaskLemmas::is_within, crate::proofs::TaskLemmas::base_rejected, crate::proofs::TaskLemmas::domain_read, crate::proofs::TaskLemmas::domain_rejected))]
    fn read_two_words(alloc: Global, name: &str, text: &'w str) -> Result<Task<'w>, Failure>
        ensures { Reads (takes_memory Plain name.now) (TasksNamed name.now (text.now ∷ [])) result }
    {
        match name {
            "get" => Task::read_get(alloc, text),
            "resolve" => Ok(Task::Resolve(URIView::try_from_str(text)?)),
            "relativize" => Ok(Task::Relativize(URI::try_from_str(alloc, text)?)),
            "pair" => Ok(Task::Pair(text)),
            "within" => Ok(Task::Within(URIView::try_from_str(text)?)),
            "host-within" => Ok(Task::HostWithin(read_domain(text)?)),
            _ => Err(Failure::Usage),
        }
    }

    /// The task of `get` with these names, which commas separate.
    #[tactic(auto, using(crate::proofs::TaskLemmas::gets_one, crate::proofs::TaskLemmas::gets_several, crate::proofs::TaskLemmas::gets_none))]
    fn read_get(alloc: Global, names: &str) -> Result<Task<'w>, Failure>
        ensures { Reads true (NamesGet names.now) result }
    {
        let parts = read_parts(alloc, names)?;
        match parts.as_slice() {
            [part] => Ok(Task::Get(*part)),
            _ => Ok(Task::GetParts(parts)),
        }
    }

    /// Does the task for a line. Normal forms, keys and targets are put together in the buffer.
    #[tactic(auto, using(crate::proofs::OutputLemmas::run_parse, crate::proofs::OutputLemmas::run_check, crate::proofs::OutputLemmas::run_get, crate::proofs::OutputLemmas::run_normalize, crate::proofs::OutputLemmas::run_normalize_port, crate::proofs::OutputLemmas::run_key, crate::proofs::OutputLemmas::run_audit, crate::proofs::OutputLemmas::run_equal, crate::proofs::OutputLemmas::run_check_equal, crate::proofs::OutputLemmas::run_resolve, crate::proofs::OutputLemmas::run_relativize, crate::proofs::OutputLemmas::run_edit, crate::proofs::OutputLemmas::run_get_parts, crate::proofs::OutputLemmas::run_pair, crate::proofs::OutputLemmas::run_within, crate::proofs::OutputLemmas::run_host_within, crate::proofs::OutputLemmas::run_escape, crate::proofs::OutputLemmas::run_escape_link))]
    pub fn run<O: Write>(
        &self,
        alloc: Global,
        buffer: &mut Vec<u8>,
        line: &[u8],
        out: &mut O,
    ) -> Result<(), Failure>
        ensures { spec.Does (λ a. spec.AnswersLine self.now line.now a) (O.contents out.old) (O.contents out.new) result }
    {
        match self {
            Task::Parse => parse_json(line, out),
            Task::Check => check(line),
            Task::Get(part) => get_or_empty(alloc, *part, line, out),
            Task::GetParts(parts) => get_parts(alloc, parts, line, out),
            Task::Normalize => normalize_with(buffer, line, out),
            Task::NormalizePort => normalize_port(alloc, line, out),
            Task::Key => key_with(buffer, line, out),
            Task::Audit => audit(line, out),
            Task::Equal => equal_pair(line, out),
            Task::CheckEqual => check_pair(line),
            Task::Resolve(base) => resolve_with(buffer, base, line, out),
            Task::Relativize(base) => relativize_against(alloc, base, line, out),
            Task::Edit(steps) => edit_line(alloc, steps, line, out),
            Task::Pair(name) => pair_or_empty(name, line, out),
            Task::Within(base) => print_within(base, line, out),
            Task::HostWithin(domain) => print_host_within(domain, line, out),
            Task::Escape => escape(alloc, line, out),
            Task::EscapeLink => escape_link(alloc, line, out),
        }
    }

    /// How many fields of a line the task reads.
    pub fn width(&self) -> usize
        ensures is { result ≡ width_of self.now }
        ensures some { 0 < result }
    {
        match self {
            Task::Equal | Task::CheckEqual => 2,
            _ => 1,
        }
    }

    /// Where a rejected line is wrong: the first byte of its fault. A line of two texts is wrong in the
    /// first, if that has one.
    pub fn fault_offset(&self, line: &[u8]) -> usize {
        match self {
            Task::Equal | Task::CheckEqual => pair_fault_offset(line),
            _ => URIReference::first_fault(line).map_or(0, |fault| fault.0),
        }
    }

    /// How many fields the task prints.
    pub fn printed_fields(&self) -> usize
        ensures { result ≡ count_of self.now }
    {
        match self {
            Task::GetParts(parts) => parts.len(),
            _ => 1,
        }
    }

    /// Whether the task prints nothing.
    pub fn is_quiet(&self) -> bool {
        matches!(self, Task::Check | Task::CheckEqual)
    }
}
