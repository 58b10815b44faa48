//! How a line is written.
ghost use Rattle.std.specs.Prelude.{◌≡◌, ◌++◌};
ghost use Rattle.bng_gate.specs.Saying.{Says};
ghost use Rattle.bng_gate.specs.Texts.{line_text};

use crate::texts::Line;
use bng_plant::{Sink, Wrote};

/// Writes a text.
pub(crate) fn say_text<X: Sink>(sink: &mut X, text: &[u8]) -> Wrote
    ensures { Says (X.told sink.old) (X.told sink.new) text.now result }
{
    sink.write(text)
}

// Writes the last two parts.
fn say_end<X: Sink>(sink: &mut X, line: &Line) -> Wrote
    ensures { Says (X.told sink.old) (X.told sink.new) (line.now.name.now ++ line.now.back.now) result }
{
    match say_text(sink, line.name) {
        Wrote::Ok => say_text(sink, line.back.as_bytes()),
        Wrote::Failed => Wrote::Failed,
    }
}

// Writes the parts after the first.
fn say_rest<X: Sink>(sink: &mut X, line: &Line) -> Wrote
    ensures { Says (X.told sink.old) (X.told sink.new) (line.now.middle.bytes ++ (line.now.name.now ++ line.now.back.now)) result }
{
    match say_text(sink, line.middle.as_bytes()) {
        Wrote::Ok => say_end(sink, line),
        Wrote::Failed => Wrote::Failed,
    }
}

/// Writes a line, part after part, until one fails.
pub fn say<X: Sink>(sink: &mut X, line: &Line) -> Wrote
    ensures { Says (X.told sink.old) (X.told sink.new) (line_text line.now) result }
{
    match say_text(sink, line.front.as_bytes()) {
        Wrote::Ok => say_rest(sink, line),
        Wrote::Failed => Wrote::Failed,
    }
}
