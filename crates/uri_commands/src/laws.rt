//! Laws of commands: their words, and examples of what they print. Each function does nothing: its contract is the law.

ghost use Rattle.std.specs.Prelude.{◌≡◌, ◌<◌, ◌^◌, ◌∷◌, ◌++◌, [], List, Some, bytes_eq, codes, decimal, false, flat_map, map, suc, true, ℕ};
ghost use Rattle.uri_commands.specs.Help.{topics};
ghost use Rattle.uri_commands.specs.Options.{asked, column_of, commands, is_command, is_help, is_plain, none, starts_plain};
ghost use Rattle.uri_commands.specs.Output as spec;
ghost use Rattle.uri_commands.specs.declared.get.Part.TheVariants as part;
ghost use Rattle.uri_commands.specs.declared.options.Mode.TheVariants as modes;

pub use crate::json::laws::{examples_of_objects, one_object, one_string};
use uriparse::laws::one_reading;

/// A name and texts ask for the command of this name without options, if the name doesn't begin with `-`, and
/// either the first text doesn't, or a `--` stands between them and the name isn't `help`.
pub fn words_without_options()
    ensures plain { (name : List ℕ) (texts : List (List ℕ)) → is_plain name ≡ true → starts_plain texts ≡ true → asked (name ∷ texts) ≡ record { options = none; command = name ∷ texts } }
    ensures marked { (name : List ℕ) (texts : List (List ℕ)) → is_plain name ≡ true → bytes_eq name (codes "help") ≡ false → asked (name ∷ codes "--" ∷ texts) ≡ record { options = none; command = name ∷ texts } }
{}

/// A command with `--help` or `-h` as the only other word asks for the page on it, which [`pages_of_help`] has.
pub fn help_on_a_command()
    ensures { (name word : List ℕ) → is_command name ≡ true → is_help word ≡ true → asked (name ∷ word ∷ []) ≡ record { options = none; command = codes "help" ∷ name ∷ [] } }
{}

/// The `K` of `--column K` counts from 1, and is any number that a field can have.
pub fn column_counts_from_one()
    ensures { (fields : ℕ) → suc fields < 2 ^ 64 → column_of (decimal (suc fields)) ≡ Some fields }
{}

/// Examples of words.
pub fn examples_of_words()
    ensures no_word { asked [] ≡ record { options = none; command = [] } }
    ensures version { asked (codes "--version" ∷ []) ≡ record { options = none; command = codes "--version" ∷ [] } }
    ensures help_on_an_option { asked (codes "help" ∷ codes "--lines" ∷ []) ≡ record { options = none; command = codes "help" ∷ codes "--lines" ∷ [] } }
    ensures no_option { asked (codes "--unknown" ∷ codes "parse" ∷ []) ≡ record { options = none; command = codes "--unknown" ∷ codes "parse" ∷ [] } }
    ensures options { asked (codes "--lines" ∷ codes "get" ∷ codes "--column" ∷ codes "2" ∷ codes "host" ∷ [])
        ≡ record { options = record none { reads_lines = true; columns = Some (record { first = Some 1; appends = false }) }; command = codes "get" ∷ codes "host" ∷ [] } }
    ensures no_column { asked (codes "--column" ∷ codes "0" ∷ []) ≡ record { options = none; command = codes "--column" ∷ codes "0" ∷ [] } }
    ensures short_help { asked (codes "-h" ∷ []) ≡ record { options = none; command = codes "help" ∷ [] } }
    ensures long_help_on_an_option { asked (codes "--help" ∷ codes "--lines" ∷ []) ≡ record { options = none; command = codes "help" ∷ codes "--lines" ∷ [] } }
    ensures short_version { asked (codes "-V" ∷ []) ≡ record { options = none; command = codes "--version" ∷ [] } }
    ensures help_after_a_command { asked (codes "parse" ∷ codes "--help" ∷ []) ≡ record { options = none; command = codes "help" ∷ codes "parse" ∷ [] } }
    ensures short_help_after_a_command { asked (codes "edit" ∷ codes "-h" ∷ []) ≡ record { options = none; command = codes "help" ∷ codes "edit" ∷ [] } }
    ensures help_after_no_command { asked (codes "print" ∷ codes "--help" ∷ []) ≡ record { options = none; command = codes "print" ∷ codes "--help" ∷ [] } }
    ensures help_as_input { asked (codes "parse" ∷ codes "--" ∷ codes "--help" ∷ []) ≡ record { options = none; command = codes "parse" ∷ codes "--help" ∷ [] } }
    ensures help_among_input { asked (codes "equal" ∷ codes "--help" ∷ codes "a" ∷ []) ≡ record { options = none; command = codes "equal" ∷ codes "--help" ∷ codes "a" ∷ [] } }
    ensures help_after_an_option { asked (codes "--json" ∷ codes "parse" ∷ codes "--help" ∷ [])
        ≡ record { options = record none { mode = modes.Json }; command = codes "parse" ∷ codes "--help" ∷ [] } }
    ensures ended_options { asked (codes "--lines" ∷ codes "--" ∷ codes "parse" ∷ codes "--json" ∷ [])
        ≡ record { options = record none { reads_lines = true }; command = codes "parse" ∷ codes "--json" ∷ [] } }
{}

/// The answer to `normalize TEXT` is the normal form of the text.
pub fn answer_to_normalize()
    ensures { (text : List ℕ) (answer : spec.Answer) → spec.Answers none (codes "normalize" ∷ text ∷ []) answer → spec.Normalizes text answer }
{}

/// There is a page on each command, and on each option, in the order of `uri help`.
#[tactic(auto, unfolding(crate::specs::Help::topics))]
pub fn pages_of_help()
    ensures { map (λ t. t.name) topics ≡ commands ++ (codes "--json" ∷ codes "--quiet" ∷ codes "--explain" ∷ codes "--drop-default-port" ∷ codes "--trim"
        ∷ codes "--lines" ∷ codes "--align" ∷ codes "--column" ∷ codes "--append" ∷ codes "--null" ∷ []) }
{}

/// Examples of the manual, in its order.
pub fn examples_of_outputs()
    ensures parse { spec.Parses (codes "HTTP://u@h:80/%7Eb?q#f") (spec.Printed (flat_map spec.line (codes "http://u@h:80/%7Eb?q#f" ∷ codes "scheme=http"
        ∷ codes "username=u" ∷ codes "host.name=h" ∷ codes "port=80" ∷ codes "path=/%7Eb" ∷ codes "query=q" ∷ codes "fragment=f" ∷ []))) }
    ensures rejected { spec.Parses (codes "http://h/a b") spec.Rejected }
    ensures origin { spec.Gets part.Origin (codes "https://u@example.com:8443/a?b&c#d") (spec.Printed (spec.line (codes "https://example.com:8443"))) }
    ensures absent { spec.Gets part.Port (codes "http://h/") spec.Negative }
    ensures several { spec.GetsParts (part.Host ∷ part.Query ∷ []) (codes "http://h/a") (spec.Printed (spec.line (codes "h\t"))) }
    ensures normalize { spec.Normalizes (codes "HTTP://%61:80/b/../%7Ec") (spec.Printed (spec.line (codes "http://a:80/~c"))) }
    ensures drop_default_port { spec.NormalizesPort (codes "HTTP://a:80/%7E") (spec.Printed (spec.line (codes "http://a/~"))) }
    ensures key { spec.Keys (codes "a?b") (spec.Printed (spec.line (codes "1" ++ (1 ∷ 1 ∷ []) ++ codes "a" ++ (1 ∷ 2 ∷ []) ++ codes "b" ++ (1 ∷ 1 ∷ [])))) }
    ensures agree { spec.Audits (codes "http://h/a") (spec.Printed (spec.line (codes "agree"))) }
    ensures audit { spec.Audits (codes "http://127.1/") (spec.Printed (spec.line (codes "numeric-name"))) }
    ensures audit_relative { spec.Audits (codes "//h/a") (spec.Printed (spec.line (codes "scheme"))) }
    ensures equal { spec.Compares (codes "http://h/%7ea") (codes "HTTP://H/~a") (spec.Printed (spec.line (codes "equal"))) }
    ensures different { spec.ChecksEqual (codes "http://h/a") (codes "http://h/b") spec.Negative }
    ensures resolve { spec.Resolves (codes "http://a/b/c/d;p?q") (codes "../g#s") (spec.Printed (spec.line (codes "http://a/b/g#s"))) }
    ensures decode { spec.Decodes (codes "AC%2FDC%20&%20co.") (spec.Printed (spec.line (codes "AC/DC & co."))) }
    ensures encode { spec.Encodes (codes "segment") (codes "AC/DC & co.") (spec.Printed (spec.line (codes "AC%2FDC%20&%20co."))) }
    ensures escape { spec.Escapes (codes "http://h/a b?q=100%&r=[x]") (spec.Printed (spec.line (codes "http://h/a%20b?q=100%25&r=%5Bx%5D"))) }
    ensures trim { spec.EscapesLink (codes " <URL:http://h/a b>\t") (spec.Printed (spec.line (codes "http://h/a%20b"))) }
    ensures pairs { spec.Pairs (codes "http://h/a%20b?q=100%25&r=%5Bx%5D") (spec.Printed (flat_map spec.line (codes "q=100%25" ∷ codes "r=%5Bx%5D" ∷ []))) }
    ensures pair { spec.GetsPair (codes "r") (codes "http://h/?q=100%25&r=%5Bx%5D") (spec.Printed (spec.line (codes "[x]"))) }
    ensures file { spec.Files (codes "/tmp/100% of a b.txt") (spec.Printed (spec.line (codes "file:///tmp/100%25%20of%20a%20b.txt"))) }
    ensures get_file { spec.GetsFile (codes "file:///tmp/100%25%20of%20a%20b.txt") (spec.Printed (spec.line (codes "/tmp/100% of a b.txt"))) }
    ensures other_host { spec.GetsFile (codes "file://host.example.com/tmp/a") spec.Rejected }
{
    one_reading();
}

/// Examples of edits.
pub fn examples_of_edits()
    ensures components { spec.Edits (codes "http://h/a?q#f") (codes "scheme" ∷ codes "https" ∷ codes "port" ∷ codes "8080" ∷ codes "drop-query" ∷ codes "fragment" ∷ codes "g" ∷ []) (spec.Printed (spec.line (codes "https://h:8080/a#g"))) }
    ensures pairs { spec.Edits (codes "http://h/?utm_id=1&q=a&%75tm_x") (codes "drop-pair" ∷ codes "utm_*" ∷ codes "set-pair" ∷ codes "p" ∷ codes "&" ∷ []) (spec.Printed (spec.line (codes "http://h/?q=a&p=%26"))) }
    ensures rejected { spec.Edits (codes "/a") (codes "port" ∷ codes "80" ∷ []) spec.Rejected }
    ensures unknown { spec.Edits (codes "/a") (codes "port" ∷ []) spec.Unknown }
{
    one_reading();
}
