//! Counts of segments, for dot removal and normal forms.
ghost use Rattle.std.specs.Prelude.{ℕ, List};
ghost use Rattle.std.specs.Mem.{FitsInMemory};
ghost use Rattle.uriparse_path.specs.declared.path.counts.Counts.{Counts};

/// How many segments of a list are `.`, are `..`, are `..` before any other, and are not canonical.
#[derive(Clone, Copy)]
pub struct Counts {
    pub(super) single: u32,
    pub(super) double: u32,
    pub(super) leading: u32,
    pub(super) non_canonical: u32,
}

/// An element of a list whose segments can be counted.
pub trait Dotted {
    ghost counts: { List Self → Counts };

    // An element is no larger than memory, so a reference to one can be a slice.
    ghost fits: { FitsInMemory Self.row };
}
