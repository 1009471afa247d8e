//! The items of a text, between gaps: spaces, tabs, carriage returns and line feeds. Schedules and orders are read by
//! items. And the parts of an input, cut at the lines that are exactly `%%`.
#![tactic(auto)]

mod parts;

ghost use Rattle.std.specs.List.{position};
ghost use Rattle.std.specs.Prelude.{◌≡◌, length, unwrap_or};
ghost use Rattle.ls_items.specs.Items.{is_gap, ItemsAreDivided};

/// Whether a byte is a space, a tab, a carriage return or a line feed.
pub fn is_gap(b: u8) -> bool
    ensures { result ≡ is_gap b }
{
    b == b' ' || b == b'\t' || b == b'\r' || b == b'\n'
}

fn gap_at(text: &[u8]) -> Option<usize>
    ensures { result ≡ position is_gap text.now }
{
    text.iter().position(|b| is_gap(*b))
}

/// How many bytes of a text come before its first gap.
pub fn item_len(text: &[u8]) -> usize
    ensures { result ≡ unwrap_or (position is_gap text.now) (length text.now) }
{
    match gap_at(text) {
        Some(i) => i,
        None => text.len(),
    }
}

/// A text has the items into which gaps divide it.
#[tactic(auto, using(crate::proofs::Division::items_are_divided))]
pub fn items_are_divided()
    ensures { ItemsAreDivided }
{}

pub use parts::{parts_of, text_of};
