// The page of a trace.
ghost use Rattle.std.specs.Prelude.{◌≡◌, ◌++◌, IfOk, OnOk, [], map, string_bytes};
ghost use Rattle.trace_text.specs.TraceLines.{frame_value};
ghost use Rattle.trace_page.specs.Pages.{page_text, rows};

use crate::bearing::Bearing;
use crate::heading::push_heading;
use crate::row::push_row;
use crate::seen::Seen;
use crate::sheet::{list_head, page_foot, page_head};
use std::alloc::{AllocError, Global};
use trace_text::Frame;

/// The page of a trace: what was counted, and a row for each frame in order.
pub fn page_text(alloc: Global, frames: &[Frame]) -> Result<String, AllocError>
    ensures { IfOk result (λ text. string_bytes text
        ≡ page_text (map frame_value frames.now)) }
{
    let mut text = String::from_str(alloc, page_head())?;
    push_heading(&mut text, frames)?;
    text.push_str(list_head())?;
    push_rows(alloc, &mut text, frames)?;
    text.push_str(page_foot())?;
    Ok(text)
}

// Appends a row for each frame.
fn push_rows(alloc: Global, text: &mut String, frames: &[Frame]) -> Result<(), AllocError>
    ensures { OnOk result (string_bytes text.new
        ≡ string_bytes text.old ++ rows [] (map frame_value frames.now)) }
{
    let mut seen = Seen::new();
    for frame in frames {
        let bearing = Bearing::of(frame.bytes.as_slice());
        let place = seen.pass(frame.from, &bearing);
        push_row(alloc, text, place, frame, &bearing)?;
    }
    Ok(())
}
