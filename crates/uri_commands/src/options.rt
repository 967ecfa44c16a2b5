//! The options of a command, which precede its texts.

ghost use Rattle.std.specs.Prelude.{◌≡◌, ◌<◌, ◌≤◌, ◌∷◌, IfSome, Some, length, map};
ghost use Rattle.std.specs.Option.{option_map};
ghost use Rattle.uri_commands.specs.Options as spec;
ghost use Rattle.uri_commands.specs.Options.{both};
ghost use Rattle.uri_commands.specs.Output.{is_for_lines};

use crate::columns::Columns;

/// What a command prints, and of which text, as the options say that exclude each other.
#[derive(Clone, Copy, PartialEq, Eq)]
pub enum Mode {
    /// None of these options.
    Plain,
    /// `--json`: a reference is printed as a JSON object.
    Json,
    /// `--quiet`: the status alone reports the result.
    Quiet,
    /// `--trim`: what is round a link is taken off.
    Trim,
    /// `--drop-default-port`: a port that is the scheme's default one is left out.
    DropDefaultPort,
    /// Two of these options, which no command takes.
    Mixed,
}

impl Mode {
    /// The mode with one more option.
    fn with(self, option: Mode) -> Mode
        ensures { result ≡ both self option }
    {
        if self == Mode::Plain || self == option {
            option
        } else {
            Mode::Mixed
        }
    }
}

/// The options of a command.
#[derive(Clone, Copy)]
pub struct Options {
    /// `--lines`: the texts are the lines of the standard input.
    pub reads_lines: bool,
    /// `--explain`: three lines say where a rejected text is wrong, and why.
    pub explains: bool,
    /// `--align`, `--column K`, `--append`: a line goes out for each line, with these fields.
    pub columns: Option<Columns>,
    /// The byte that ends lines: a newline, or with `--null` a NUL byte.
    pub end: u8,
    pub mode: Mode,
}

impl Options {
    /// No option.
    pub const NONE: Options = Options {
        reads_lines: false,
        explains: false,
        columns: None,
        end: b'\n',
        mode: Mode::Plain,
    };

    /// Whether there is an option that only `--lines` takes.
    pub fn is_for_lines(self) -> bool
        ensures { result ≡ is_for_lines self }
    {
        self.columns.is_some() || self.end != b'\n'
    }

    /// The options with one more mode.
    fn with_mode(self, mode: Mode) -> Options
        ensures { result ≡ spec.with_mode self mode }
    {
        let mode = self.mode.with(mode);
        Options { mode, ..self }
    }

    /// The columns that the options name so far.
    fn columns_or_whole(self) -> Columns
        ensures { result ≡ spec.columns_of self }
    {
        self.columns.unwrap_or(Columns::WHOLE)
    }

    /// The options with these columns.
    fn with_columns(self, columns: Columns) -> Options
        ensures { result ≡ record self { columns = Some columns } }
    {
        let columns = Some(columns);
        Options { columns, ..self }
    }

    /// The options with the one that this word is.
    fn with_word(self, word: &str) -> Option<Options>
        ensures { result ≡ spec.with_option self word.now }
    {
        let columns = self.columns_or_whole();
        let more = match word {
            "--lines" => {
                let reads_lines = true;
                Options {
                    reads_lines,
                    ..self
                }
            }
            "--explain" => {
                let explains = true;
                Options { explains, ..self }
            }
            "--null" | "-0" => {
                let end = 0;
                Options { end, ..self }
            }
            "--json" => self.with_mode(Mode::Json),
            "--quiet" => self.with_mode(Mode::Quiet),
            "--trim" => self.with_mode(Mode::Trim),
            "--drop-default-port" => self.with_mode(Mode::DropDefaultPort),
            "--align" => self.with_columns(columns),
            "--append" => {
                let appends = true;
                self.with_columns(Columns { appends, ..columns })
            }
            _ => return None,
        };
        Some(more)
    }

    /// The options with the column of this number.
    fn with_column(self, number: &str) -> Option<Options>
        ensures { result ≡ spec.with_column self number.now }
    {
        let first = Some(read_column(number)?);
        let columns = self.columns_or_whole();
        Some(self.with_columns(Columns { first, ..columns }))
    }

    /// The options with the one that the words begin with, and how many words that is.
    fn read(self, words: &[&str]) -> Option<(Options, usize)>
        ensures option { result ≡ spec.first_option self (map (λ w. w.now) words.now) }
        ensures bounds { IfSome result (λ r. (0 < r.1) × (r.1 ≤ length words.now)) }
    {
        let (word, rest) = words.split_first()?;
        if *word == "--column" {
            let number = rest.first()?;
            Some((self.with_column(number)?, 2))
        } else {
            Some((self.with_word(word)?, 1))
        }
    }
}

/// How many fields precede the column of this number, which counts from 1.
fn read_column(number: &str) -> Option<usize>
    ensures { result ≡ spec.column_of number.now }
{
    number.parse::<usize>().ok()?.checked_sub(1)
}

/// Reads the options at the front of the words. Returns them, with those before, and the other words.
fn read_options<'w, 't>(before: Options, words: &'w [&'t str]) -> (Options, &'w [&'t str])
    ensures { (result.0, map (λ w. w.now) result.1.now) ≡ spec.read before (map (λ w. w.now) words.now) }
{
    let mut options = before;
    let mut at = 0;
    'options: while let Some((more, count)) = options.read(&words[at..]) {
        options = more;
        at += count;
    }
    (options, &words[at..])
}

/// The words without a first `--`, which ends the options.
fn without_end<'w, 't>(words: &'w [&'t str]) -> &'w [&'t str]
    ensures { map (λ w. w.now) result.now ≡ spec.unmarked (map (λ w. w.now) words.now) }
{
    match words {
        [first, texts @ ..] => { if *first == "--" { texts } else { words } }
        [] => words,
    }
}

/// The first of the words, which is a command's name, and the other words.
fn split_name<'w, 't>(words: &'w [&'t str]) -> (Option<&'t str>, &'w [&'t str])
    ensures { spec.command_of (option_map (λ w. w.now) result.0) (map (λ w. w.now) result.1.now) ≡ map (λ w. w.now) words.now }
{
    match words {
        [name, texts @ ..] => (Some(*name), texts),
        [] => (None, words),
    }
}

/// Whether the word asks for help.
fn is_help(word: &str) -> bool
    ensures { result ≡ spec.is_help word.now }
{
    matches!(word, "-h" | "--help")
}

/// Whether a command has this name.
fn is_command(name: &str) -> bool
    ensures { result ≡ spec.is_command name.now }
{
    matches!(
        name,
        "parse"
            | "tail"
            | "get"
            | "pairs"
            | "pair"
            | "equal"
            | "within"
            | "host-within"
            | "audit"
            | "normalize"
            | "key"
            | "resolve"
            | "relativize"
            | "edit"
            | "file"
            | "escape"
            | "encode"
            | "decode"
            | "help"
    )
}

/// The command that the words are a synonym of, and its texts.
fn synonym<'w, 't>(words: &'w [&'t str]) -> Option<(&'t str, &'w [&'t str])>
    ensures { option_map (λ r. r.0.now ∷ map (λ w. w.now) r.1.now) result ≡ spec.synonym (map (λ w. w.now) words.now) }
{
    match words {
        [word] => {
            if is_help(word) {
                Some(("help", &words[1..]))
            } else if *word == "-V" {
                Some(("--version", &words[1..]))
            } else {
                None
            }
        }
        [word, next] => {
            if is_help(next) && is_command(word) {
                Some(("help", &words[..1]))
            } else if is_help(word) {
                Some(("help", &words[1..]))
            } else {
                None
            }
        }
        _ => None,
    }
}

/// Splits the words into the options, the command's name, if there is one, and its texts.
///
/// Options stand before the command or after it, in any order, but before its texts. `--` ends them. What
/// follows `help` is a name, also an option's. `-h` and `--help` are `help`, `-V` is `--version`, and a command
/// with `-h` or `--help` as the only other word is `help` on that command.
pub fn split_options<'w, 't>(words: &'w [&'t str]) -> (Options, Option<&'t str>, &'w [&'t str])
    ensures { spec.asked (map (λ w. w.now) words.now) ≡ record { options = result.0; command = spec.command_of (option_map (λ w. w.now) result.1) (map (λ w. w.now) result.2.now) } }
{
    match synonym(words) {
        Some((name, texts)) => (Options::NONE, Some(name), texts),
        None => split_in_full(words),
    }
}

/// Splits words that are no synonym.
fn split_in_full<'w, 't>(words: &'w [&'t str]) -> (Options, Option<&'t str>, &'w [&'t str])
    ensures { spec.asked_in_full (map (λ w. w.now) words.now) ≡ record { options = result.0; command = spec.command_of (option_map (λ w. w.now) result.1) (map (λ w. w.now) result.2.now) } }
{
    let (options, rest) = read_options(Options::NONE, words);
    let Some((name, more)) = rest.split_first() else {
        return (options, None, rest);
    };
    match *name {
        "--" => {
            let (name, texts) = split_name(more);
            (options, name, texts)
        }
        "help" => (options, Some(*name), more),
        _ => {
            let (options, texts) = read_options(options, more);
            (options, Some(*name), without_end(texts))
        }
    }
}
