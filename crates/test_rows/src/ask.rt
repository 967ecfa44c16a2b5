//! Rows that are asked in turn.

use crate::answer::Answer;
use std::alloc::{AllocError, Global};
use std::fmt::Write;

/// A part of what is tested, with its rows.
pub trait Layer {
    /// The file of the rows, and the rows, one a line.
    fn rows(&self) -> (&'static str, &'static str);

    /// The result of what a row asks.
    fn answer(&self, alloc: Global, asked: &str) -> Answer;
}

/// What a row asks, and the result that it expects.
fn split_row(row: &str) -> (&str, &str) {
    match row.split_once(" -> ") {
        Some((asked, "''")) => (asked, ""),
        Some(asked_and_wanted) => asked_and_wanted,
        None => (row, "no answer"),
    }
}

/// Adds a line on the row of this file if its result is wrong. `AllocError` if it ran out of memory.
fn add_wrong<L: Layer>(
    alloc: Global,
    layer: &L,
    file: &str,
    row: &str,
    report: &mut String,
) -> Result<(), AllocError> {
    let (asked, wanted) = split_row(row);
    let got = layer.answer(alloc, asked)?;
    if got.as_str() == wanted {
        return Ok(());
    }
    writeln!(report, "{file}: {asked}: wanted `{wanted}`, got `{got}`")
}

/// A line on each row with a wrong result: its file, the row, the wanted result, and the one that it
/// got.
pub fn wrong_rows<L: Layer>(alloc: Global, layers: &[L]) -> Answer {
    let mut report = String::new(alloc);
    for layer in layers {
        let (file, rows) = layer.rows();
        for row in rows.lines() {
            add_wrong(alloc, layer, file, row, &mut report)?;
        }
    }
    Ok(report)
}
