//! What the crates above build on. Users do not need it.

mod ambiguous;
mod backward_buffer;
mod bits;
mod canonical;
mod canonical_escape;
mod canonical_prefix;
mod class;
mod coding;
mod copy;
mod equivalence;
mod forward_buffer;
mod held;
mod print;
mod rewrite;
mod scan;
mod scanned;
mod spelling;
mod split;
mod text;
mod token;

pub use crate::address::printed::{prepend_decimal, prepend_ipv4, prepend_ipv6};
pub use crate::query::find::{Among, Named, PairTest, find_pair};
pub use crate::query::put::{Appended, Appending, InPair, WithPair, Without, write_text};
pub use ambiguous::{has_ambiguous_escape, has_dots_before_end, lacks_name};
pub use backward_buffer::{Form, prepend, prepend_following, prepend_formed};
pub use bits::{bits_below, count_below, highest, lowest, without, without_lowest};
pub use canonical::{canonical_bytes, feed_spelling, feed_text, is_canonical};
pub use canonical_prefix::{check_bytes, split_canonical_prefix};
pub use class::{Class, Outside, is_unreserved, offset_of_fault};
pub use coding::{
    compare_represented, form_decoded_bytes, most_escaped_bytes, push_encoded, push_escaped,
    represents, represents_prefix,
};
pub use copy::{borrowed_text, canonical_copy, is_canonical_part, owned_text, put_copy};
pub use equivalence::{compare_spelling, same_spelling};
pub use forward_buffer::{TooSmall, append, append_encoded, append_escaped, encode_into};
pub use held::Held;
pub use print::write_plain;
pub use scan::{ByteTest, Is, IsAny, first, marks_of_pairs, next_mask, next_mask_by_two};
pub use scanned::{ScannedText, find_text_before, find_text_if, no_text, scanned_again};
pub use split::{split_at_delimiter, without_delimiter};
pub use text::{
    Text, TextKind, checked_text, len_of, normalized_text, text_from_checked, text_from_checked_vec,
};
pub use token::{Case, is_escape, octet_of};
