//! Where the data of a day ends.

ghost use Rattle.std.specs.Prelude.{◌≡◌, IfOk};
ghost use Rattle.std.specs.String.{string_bytes};
ghost use Rattle.picture_core.specs.DataEnd.{end_words, end_line, data_end, lanes_end};

use crate::axis::x_of;
use crate::element::{Style, label_text};
use crate::label::time;
use price_core::NoMemory;
use session_core::Moment;
use std::alloc::Global;

/// The words over the line: from it on, and on the right of the picture up to it.
#[tactic(auto, unfolding(crate::specs::DataEnd::end_words))]
fn end_words(alloc: Global, x: u64, last: Moment) -> Result<String, NoMemory>
    ensures { IfOk result (λ text. string_bytes text ≡ end_words x last) }
{
    let moment = time(alloc, last)?;
    let words = format!(in alloc; "data ends {moment}")?;
    if x < 1400 {
        label_text(alloc, Style::Plain, x, 285, words.as_str(), "")
    } else {
        label_text(alloc, Style::Before, x, 285, words.as_str(), "")
    }
}

/// Covers what stands behind the last moment down to a frame's lower edge, with a line there.
#[tactic(auto, unfolding(crate::specs::DataEnd::end_line))]
fn end_line(alloc: Global, bottom: u128, x: u64) -> Result<String, NoMemory>
    ensures { IfOk result (λ text. string_bytes text ≡ end_line bottom x) }
{
    let width = 6197u64.saturating_sub(x);
    let height = bottom.saturating_sub(306);
    Ok(format!(in alloc;
        "<rect class=\"untold\" x=\"{x}\" y=\"303\" width=\"{width}\" height=\"{height}\"/><path class=\"end\" d=\"M{x} 300V{bottom}\"/>"
    )?)
}

/// The end of the data, at the last moment that is told, in a frame with that lower edge.
pub fn data_end(alloc: Global, bottom: u128, last: Moment) -> Result<String, NoMemory>
    ensures { IfOk result (λ text. string_bytes text ≡ data_end bottom last) }
{
    let x = x_of(last);
    let line = end_line(alloc, bottom, x)?;
    let words = end_words(alloc, x, last)?;
    Ok(format!(in alloc; "{line}{words}\n")?)
}

/// The line of the end through the lanes.
#[tactic(auto, unfolding(crate::specs::DataEnd::lanes_end))]
pub fn lanes_end(alloc: Global, last: Moment) -> Result<String, NoMemory>
    ensures { IfOk result (λ text. string_bytes text ≡ lanes_end last) }
{
    let x = x_of(last);
    Ok(format!(in alloc; "<path class=\"end\" d=\"M{x} 3040V3830\"/>\n")?)
}
