//! `uri edit TEXT EDIT..`: a reference with components or pairs set or removed.

ghost use Rattle.std.specs.Prelude.{◌≡◌, ◌≤◌, ◌<◌, ◌⊎◌, ◌∷◌, ◌++◌, List, None, Some, IfOk, IfSome, MatchOption, MatchResult, OnOk, drop, flat_map, length, map};
ghost use Rattle.std.specs.Option.{option_and_then, option_map};
ghost use Rattle.std.specs.Result.{result_ok};
ghost use Rattle.uriparse.specs.Host.{reading};
ghost use Rattle.uriparse.specs.HostError.{HostError};
ghost use Rattle.uriparse.specs.Password as password;
ghost use Rattle.uriparse.specs.Port as port;
ghost use Rattle.uriparse.specs.Query as query;
ghost use Rattle.uriparse.specs.Reference.{Parts};
ghost use Rattle.uriparse.specs.Username as username;
ghost use Rattle.uri_commands.specs.Edits as edits;
ghost use Rattle.uri_commands.specs.Output as spec;
ghost use Rattle.uri_commands.specs.Output.{Rejected};
ghost use Rattle.uri_commands.specs.declared.edit.Change.{Change};
ghost use Rattle.uri_commands.specs.declared.failure.Failure.TheVariants.{Usage};

use crate::failure::{EditError, Failure};
use crate::print::print_line;
use crate::topic::Topic;
use std::alloc::{AllocError, Global};
use std::io::Write;
use uriparse::authority::parse_port;
use uriparse::{
    Authority, AuthorityError, Fragment, Host, Password, Path, Query, Scheme, URIReference,
    URIReferenceError, Username,
};
use uriparse_text::internal::Held;

pub static ABOUT: Topic = (
    "edit",
    "\
Prints a reference with components or pairs of its query changed.

Usage: uri edit TEXT EDIT..
       uri --lines edit EDIT..

Use it to change links, or to strip tracking parameters. Edits are made from the
left. Each EDIT is one of

    scheme V, authority V, path V, query V, fragment V,
    username V, password V, host V, port V,
    drop-scheme, drop-authority, drop-query, drop-fragment,
    drop-host, drop-userinfo, drop-port, drop-default-port,
    set-pair NAME VALUE, append-pair NAME VALUE, drop-pair NAME,
    sort-pairs, normalize

V is the string of the component, so %2F is an escape in it. host V makes an
authority if there is none; a user name, a password and a port need a host.
drop-host is drop-authority, drop-userinfo removes user name and password, and
drop-default-port a port that is the scheme's default one.

set-pair sets the first pair of this name, or adds one, and removes the others.
append-pair adds a pair after the others. NAME and VALUE are data, and are
percent-encoded. drop-pair removes all pairs of this name; its NAME is the
string of a query: %26 is &, utm_* is each name that begins with utm_, and %2A
is a star. Names are compared decoded. If no pair is left, no query is.
sort-pairs sorts by name, and pairs of one name keep their order.

Exit status: 0 on success, 1 if TEXT or an edit is rejected, 2 on a usage error.

Example:
    uri edit 'http://h/a?q#f' scheme https port 8080 drop-query fragment g
    uri edit 'http://h/?utm_id=1&q=a&%75tm_x' drop-pair 'utm_*' set-pair p '&'
prints
    https://h:8080/a#g
    http://h/?q=a&p=%26
",
);

/// A component that an edit sets.
#[derive(Clone, Copy)]
enum Component {
    Scheme,
    Authority,
    Username,
    Password,
    Host,
    Port,
    Path,
    Query,
    Fragment,
}

/// What an edit removes.
#[derive(Clone, Copy)]
enum Dropped {
    Scheme,
    Authority,
    Userinfo,
    Port,
    DefaultPort,
    Query,
    Fragment,
}

/// An edit, as its words say it. Its value isn't read yet.
#[derive(Clone, Copy)]
enum Change<'w> {
    Set(Component, &'w str),
    Drop(Dropped),
    SetPair(&'w str, &'w str),
    AppendPair(&'w str, &'w str),
    DropPair(&'w str),
    SortPairs,
    Normalize,
}

/// A component that is read.
#[derive(Drop)]
enum Value<'w> {
    Scheme(Scheme<'w>),
    Authority(Authority<'w>),
    Username(Username<'w>),
    Password(Password<'w>),
    Host(Host<'w>),
    Port(Option<u16>),
    Path(Path<'w>),
    Query(Query<'w>),
    Fragment(Fragment<'w>),
}

/// An edit whose value is read.
#[derive(Drop)]
enum Act<'w> {
    Set(Value<'w>),
    Drop(Dropped),
    SetPair(&'w str, &'w str),
    AppendPair(&'w str, &'w str),
    /// Leaves out the pairs whose names are among the names of this query.
    DropPairs(Query<'static>),
    SortPairs,
    Normalize,
}

/// One or more edits whose values are read, and the index of the first.
#[derive(Drop)]
pub struct Step<'w> {
    index: usize,
    act: Act<'w>,
}

/// The component of this name.
fn component_of(name: &str) -> Option<Component>
    ensures { result ≡ edits.component_of name.now }
{
    match name {
        "scheme" => Some(Component::Scheme),
        "authority" => Some(Component::Authority),
        "username" => Some(Component::Username),
        "password" => Some(Component::Password),
        "host" => Some(Component::Host),
        "port" => Some(Component::Port),
        "path" => Some(Component::Path),
        "query" => Some(Component::Query),
        "fragment" => Some(Component::Fragment),
        _ => None,
    }
}

/// What the edit of this name removes.
fn dropped_of(name: &str) -> Option<Dropped>
    ensures { result ≡ edits.dropped_of name.now }
{
    match name {
        "drop-scheme" => Some(Dropped::Scheme),
        "drop-authority" | "drop-host" => Some(Dropped::Authority),
        "drop-userinfo" => Some(Dropped::Userinfo),
        "drop-port" => Some(Dropped::Port),
        "drop-default-port" => Some(Dropped::DefaultPort),
        "drop-query" => Some(Dropped::Query),
        "drop-fragment" => Some(Dropped::Fragment),
        _ => None,
    }
}

/// The edit of this name that takes no value.
fn plain_change(name: &str) -> Option<Change<'static>>
    ensures { option_map edits.edit_of result ≡ edits.plain_edit name.now }
{
    match name {
        "sort-pairs" => Some(Change::SortPairs),
        "normalize" => Some(Change::Normalize),
        _ => Some(Change::Drop(dropped_of(name)?)),
    }
}

/// The edit of this name that takes one value.
fn valued_change<'w>(name: &str, value: &'w str) -> Option<Change<'w>>
    ensures { option_map edits.edit_of result ≡ edits.valued_edit name.now value.now }
{
    match name {
        "drop-pair" => Some(Change::DropPair(value)),
        _ => Some(Change::Set(component_of(name)?, value)),
    }
}

/// The edit of this name that takes a name and a value.
fn pair_change<'w>(edit: &str, name: &'w str, value: &'w str) -> Option<Change<'w>>
    ensures { option_map edits.edit_of result ≡ edits.pair_edit edit.now name.now value.now }
{
    match edit {
        "set-pair" => Some(Change::SetPair(name, value)),
        "append-pair" => Some(Change::AppendPair(name, value)),
        _ => None,
    }
}

/// The first edit of these words, and how many words it takes.
fn first_change<'w>(words: &[&'w str]) -> Option<(Change<'w>, usize)>
    ensures bounds { IfSome result (λ x. (0 < x.1) × (x.1 ≤ length words.now)) }
    ensures edits { MatchOption result (0 < length words.now → edits.edits_of (map (λ w. w.now) words.now) ≡ None) (λ x. edits.edits_of (map (λ w. w.now) words.now) ≡ option_map (λ es. edits.edit_of x.0 ∷ es) (edits.edits_of (map (λ w. w.now) (drop x.1 words.now)))) }
{
    let [edit, values @ ..] = words else {
        return None;
    };
    if let Some(change) = plain_change(edit) {
        return Some((change, 1));
    }
    let [first, more @ ..] = values else {
        return None;
    };
    if let Some(change) = valued_change(edit, first) {
        return Some((change, 2));
    }
    let [second, ..] = more else {
        return None;
    };
    if let Some(change) = pair_change(edit, first, second) {
        return Some((change, 3));
    }
    None
}

/// The edits that the words say, from the left.
fn changes<'w>(alloc: Global, words: &[&'w str]) -> Result<Vec<Change<'w>>, Failure>
    ensures { MatchResult result (λ changes. edits.edits_of (map (λ w. w.now) words.now) ≡ Some (map edits.edit_of changes.items)) (λ f. spec.EndsWork f ⊎ ((edits.edits_of (map (λ w. w.now) words.now) ≡ None) × (f ≡ Usage))) }
{
    let mut changes = Vec::with_capacity(alloc, words.len())?;
    let mut at = 0;
    'words: while at < words.len() {
        let Some((change, count)) = first_change(&words[at..]) else {
            return Err(Failure::Usage);
        };
        changes.push(change)?;
        at += count;
    }
    Ok(changes)
}

/// Reads the value that a component is set to.
fn read_set<'w>(
    alloc: Global,
    component: Component,
    text: &'w str,
) -> Result<Value<'w>, URIReferenceError>
    ensures { edits.ReadsValue (edits.value_of component text.now) result }
{
    Ok(match component {
        Component::Scheme => Value::Scheme(Scheme::try_from_str(text)?),
        Component::Authority => Value::Authority(Authority::try_from_str(text)?),
        Component::Username => Value::Username(read_username(text)?),
        Component::Password => Value::Password(read_password(text)?),
        Component::Host => Value::Host(read_host(text)?),
        Component::Port => Value::Port(read_port(text)?),
        Component::Path => Value::Path(Path::try_from_str(alloc, text)?),
        Component::Query => Value::Query(Query::try_from_str(text)?),
        Component::Fragment => Value::Fragment(Fragment::try_from_str(text)?),
    })
}

/// Reads a user name.
fn read_username(text: &str) -> Result<Username<'_>, AuthorityError>
    ensures { result_ok result ≡ result_ok (username.reading text.now) }
{
    Ok(Username::try_from_str(text)?)
}

/// Reads a password.
fn read_password(text: &str) -> Result<Password<'_>, AuthorityError>
    ensures { result_ok result ≡ result_ok (password.reading text.now) }
{
    Ok(Password::try_from_str(text)?)
}

/// Reads a host.
pub fn read_host(text: &str) -> Result<Host<'_>, AuthorityError>
    ensures { MatchResult result (λ h. reading text.now ≡ Ok h) (λ _. (x : HostError) × (reading text.now ≡ Err x)) }
{
    Ok(Host::try_from_str(text)?)
}

/// Reads a port. An empty one counts as absent.
fn read_port(text: &str) -> Result<Option<u16>, AuthorityError>
    ensures { result_ok result ≡ result_ok (port.reading text.now) }
{
    Ok(parse_port(text.as_bytes())?)
}

/// Appends a name that is written as a query, so that no `&` or `=` in it ends it.
fn push_name(names: &mut Vec<u8>, name: &[u8]) -> Result<(), AllocError>
    ensures { OnOk result (names.new.items ≡ names.old.items ++ edits.name_text name.now) }
{
    for b in name {
        match *b {
            b'&' => names.extend_from_slice(b"%26")?,
            b'=' => names.extend_from_slice(b"%3D")?,
            b => names.push(b)?,
        }
    }
    Ok(())
}

/// This name and those of the `drop-pair` edits that follow it at once, with a `&` between them, and how
/// many edits these are.
fn dropped_names(
    alloc: Global,
    name: &str,
    others: &[Change<'_>],
) -> Result<(Vec<u8>, usize), AllocError>
    ensures { IfOk result (λ x. edits.DropsPairs name.now others.now x.0.items x.1) }
{
    let mut names = Vec::new(alloc);
    push_name(&mut names, name.as_bytes())?;
    let mut count = 0;
    'others: while let Some(Change::DropPair(name)) = others.get(count) {
        names.push(b'&')?;
        push_name(&mut names, name.as_bytes())?;
        count += 1;
    }
    Ok((names, count))
}

/// Reads a query.
fn read_query(alloc: Global, bytes: &[u8]) -> Result<Query<'static>, URIReferenceError>
    ensures { edits.ReadsQuery bytes.now result }
{
    let query = Query::try_from_bytes(bytes)?;
    Ok(query.to_owned(alloc)?)
}

/// Reads this name and those of the `drop-pair` edits that follow it at once, as one query, and returns
/// how many edits these are.
fn read_names(
    alloc: Global,
    name: &str,
    others: &[Change<'_>],
) -> Result<(Query<'static>, usize), URIReferenceError>
    ensures { edits.ReadsNames name.now others.now result }
{
    let (bytes, count) = dropped_names(alloc, name, others)?;
    let names = read_query(alloc, &bytes)?;
    Ok((names, count))
}

/// Reads the value of the edit, if it has one, and the names of the `drop-pair` edits that follow at once
/// if it is one too. Returns how many of the others these are.
fn read_act<'w>(
    alloc: Global,
    change: Change<'w>,
    others: &[Change<'w>],
) -> Result<(Act<'w>, usize), URIReferenceError>
    ensures { edits.ReadsAct (edits.edit_of change.entry) others.now result }
{
    let act = match change {
        Change::Set(component, text) => Act::Set(read_set(alloc, component, text)?),
        Change::Drop(dropped) => Act::Drop(dropped),
        Change::SetPair(name, value) => Act::SetPair(name, value),
        Change::AppendPair(name, value) => Act::AppendPair(name, value),
        Change::DropPair(name) => {
            let (names, count) = read_names(alloc, name, others)?;
            return Ok((Act::DropPairs(names), count));
        }
        Change::SortPairs => Act::SortPairs,
        Change::Normalize => Act::Normalize,
    };
    Ok((act, 0))
}

/// Reads the edits' values, from the left. Several `drop-pair` edits in a row are one step.
fn read_changes<'w>(alloc: Global, changes: &[Change<'w>]) -> Result<Vec<Step<'w>>, Failure>
    ensures { spec.ReadsChanges (map edits.edit_of changes.now) result }
{
    let mut steps = Vec::with_capacity(alloc, changes.len())?;
    let mut index = 0;
    'changes: while index < changes.len() {
        let (act, more) = read_act(alloc, changes[index], &changes[index + 1..])?;
        steps.push(Step { index, act })?;
        index += 1 + more;
    }
    Ok(steps)
}

/// Reads the edits that the words say, with their values.
#[tactic(auto, using(crate::proofs::EditLemmas::edits_named, crate::proofs::EditLemmas::edits_unnamed))]
pub fn read_edits<'w>(alloc: Global, words: &[&'w str]) -> Result<Vec<Step<'w>>, Failure>
    ensures { spec.ReadsEdits (map (λ w. w.now) words.now) result }
{
    let changes = changes(alloc, words)?;
    read_changes(alloc, &changes)
}

/// Sets a component.
fn set_value<'r>(
    alloc: Global,
    reference: &mut URIReference<'r>,
    value: &'r Value<'_>,
) -> Result<(), EditError>
    ensures { spec.Makes (edits.set_to value.now reference.old) reference.new result }
{
    match value {
        Value::Scheme(scheme) => reference.set_scheme(Some(scheme.as_borrowed()))?,
        Value::Authority(authority) => reference.set_authority(Some(authority.as_borrowed()))?,
        Value::Username(username) => reference.set_username(Some(username.as_borrowed()))?,
        Value::Password(password) => reference.set_password(Some(password.as_borrowed()))?,
        Value::Host(host) => reference.set_host(host.as_borrowed()),
        Value::Port(port) => reference.set_port(*port)?,
        Value::Path(path) => reference.set_path(path.to_borrowed(alloc)?)?,
        Value::Query(query) => reference.set_query(Some(query.as_borrowed()))?,
        Value::Fragment(fragment) => reference.set_fragment(Some(fragment.as_borrowed()))?,
    }
    Ok(())
}

/// Removes a component.
fn drop_part(reference: &mut URIReference<'_>, dropped: Dropped) -> Result<(), EditError>
    ensures { spec.Makes (edits.without dropped reference.old) reference.new result }
{
    match dropped {
        Dropped::Scheme => reference.set_scheme(None)?,
        Dropped::Authority => reference.set_authority(None)?,
        Dropped::Userinfo => reference.set_username(None)?,
        Dropped::Port => reference.set_port(None)?,
        Dropped::DefaultPort => reference.normalize_port(),
        Dropped::Query => reference.set_query(None)?,
        Dropped::Fragment => reference.set_fragment(None)?,
    }
    Ok(())
}

/// Makes one step.
fn make_step<'r>(
    alloc: Global,
    reference: &mut URIReference<'r>,
    act: &'r Act<'_>,
) -> Result<(), EditError>
    ensures { spec.Makes (edits.act_made act.now reference.old) reference.new result }
{
    match act {
        Act::Set(value) => set_value(alloc, reference, value)?,
        Act::Drop(dropped) => drop_part(reference, *dropped)?,
        Act::SetPair(name, value) => {
            reference.set_pair(alloc, name.as_bytes(), Some(value.as_bytes()))?
        }
        Act::AppendPair(name, value) => {
            reference.append_pair(alloc, name.as_bytes(), Some(value.as_bytes()))?
        }
        Act::DropPairs(names) => reference.remove_pairs_named(alloc, names)?,
        Act::SortPairs => reference.sort_pairs(alloc)?,
        Act::Normalize => reference.normalize(alloc)?,
    }
    Ok(())
}

/// Makes the edits, up to the first that is rejected.
fn make_steps<'r>(
    alloc: Global,
    reference: &mut URIReference<'r>,
    steps: &'r [Step<'_>],
) -> Result<(), Failure>
    ensures { MatchResult result (λ _. edits.steps_made steps.now reference.old ≡ Some reference.new) (λ f. spec.EndsWork f ⊎ ((edits.steps_made steps.now reference.old ≡ None) × (spec.answer_of f ≡ Rejected))) }
{
    for step in steps {
        if let Err(refusal) = make_step(alloc, reference, &step.act) {
            let index = step.index;
            return Err(Failure::Edit { index, refusal });
        }
    }
    Ok(())
}

/// Prints the reference with all edits made. The words are checked first, then the text is read,
/// then the values.
#[tactic(auto, using(crate::proofs::EditLemmas::edits_made, crate::proofs::EditLemmas::no_edits))]
pub fn edit<O: Write>(alloc: Global, text: &str, words: &[&str], out: &mut O) -> Result<(), Failure>
    ensures { spec.Does (spec.Edits text.now (map (λ w. w.now) words.now)) (O.contents out.old) (O.contents out.new) result }
{
    let changes = changes(alloc, words)?;
    edit_text(alloc, text, &changes, out)
}

/// Reads the text and the values, and prints the text with the edits made.
#[tactic(auto, using(crate::proofs::EditLemmas::edited_line, crate::proofs::OutputLemmas::rejected_unless, crate::proofs::EditLemmas::edits_unread, crate::proofs::EditLemmas::edits_read))]
fn edit_text<O: Write>(
    alloc: Global,
    text: &str,
    changes: &[Change<'_>],
    out: &mut O,
) -> Result<(), Failure>
    ensures { spec.Does (spec.EditsLine (edits.all_made (map edits.edit_of changes.now)) text.now) (O.contents out.old) (O.contents out.new) result }
{
    let reference = Held(URIReference::try_from_str(alloc, text)?);
    let steps = Held(read_changes(alloc, changes)?);
    print_edited(alloc, reference.take(), &steps.0, out)
}

/// Prints a line's reference with all edits made.
#[tactic(auto, using(crate::proofs::EditLemmas::edited_line, crate::proofs::OutputLemmas::rejected_unless))]
pub fn edit_line<O: Write>(
    alloc: Global,
    steps: &[Step<'_>],
    line: &[u8],
    out: &mut O,
) -> Result<(), Failure>
    ensures { spec.Does (spec.EditsLine (edits.steps_made steps.now) line.now) (O.contents out.old) (O.contents out.new) result }
{
    let reference = URIReference::try_from_bytes(alloc, line)?;
    print_edited(alloc, reference, steps, out)
}

/// Makes the edits, and prints the result.
#[tactic(auto, using(crate::proofs::EditLemmas::edited, crate::proofs::EditLemmas::not_edited))]
fn print_edited<'r, O: Write>(
    alloc: Global,
    reference: URIReference<'r>,
    steps: &'r [Step<'_>],
    out: &mut O,
) -> Result<(), Failure>
    ensures { spec.Does (spec.Edited (edits.steps_made steps.now reference.entry)) (O.contents out.old) (O.contents out.new) result }
{
    let mut reference = Held(reference);
    make_steps(alloc, &mut reference.0, steps)?;
    print_line(&reference.0, out)
}
