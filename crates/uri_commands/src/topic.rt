//! What `uri help NAME` says of a command or of an option.

/// A command or an option that has a page: its name, and the page, whose first line says what it does, and which ends with an
/// example that a shell runs unchanged, and with what it prints.
pub type Topic = (&'static str, &'static str);
