ghost use Rattle.std.specs.Prelude.{◌↔◌, IsTrue, List};
ghost use Rattle.bng_words.specs.Words.{texts};
ghost use Rattle.bng_words.specs.Line.{LinePiece, ArePieces};
ghost use Rattle.bng_words.specs.Place.{Fits};
ghost use Rattle.bng_words.specs.Meaning.{Meaning, Says};

use crate::command_name::command_named;
use crate::piece::front;
use crate::place::{Place, Places, places_left, places_of};

/// Whether the words are a command.
pub(crate) fn is_command(words: &[String]) -> bool
    ensures { IsTrue result ↔ ((m : Meaning) × Says (texts words.now) m) }
{
    let Some((word, after)) = words.split_first() else {
        return false;
    };
    match command_named(word.as_str()) {
        Some(command) => is_line(after, places_of(command)),
        None => false,
    }
}

// Whether the words are pieces that give these places what may stand there, each at most once, and the name.
fn is_line(words: &[String], places: Places) -> bool
    ensures { IsTrue result ↔ ((ps : List LinePiece) × ArePieces ps (texts words.now) × Fits places ps) }
{
    if words.is_empty() {
        return matches!(places.name, Place::Closed);
    }
    let Some((piece, rest)) = front(words) else {
        return false;
    };
    match places_left(places, piece) {
        Some(places) => is_line(rest, places),
        None => false,
    }
}
