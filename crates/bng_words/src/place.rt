ghost use Rattle.std.specs.Prelude.{◌≡◌, ◌↔◌, IsTrue, MatchOption};
ghost use Rattle.bng_words.specs.Place.{Takes, place_of, value_of, place_at, places, without};
ghost use Rattle.bng_words.specs.View.{piece_of};

use crate::command_name::CommandName;
use crate::number::is_number;
use crate::option::OptionName;
use crate::piece::Piece;

/// The most rounds that a run is told to serve, 2^40.
pub(crate) const ROUNDS_MOST: u64 = 1_099_511_627_776;

/// The most subscribers of an exercise.
pub(crate) const SUBSCRIBERS_MOST: u64 = 4_000;

/// The most workers of an exercise.
pub(crate) const WORKERS_MOST: u64 = 16;

/// What may still stand at a place of a line.
#[derive(Clone, Copy)]
pub(crate) enum Place {
    /// Nothing, or nothing more.
    Closed,
    /// One value.
    Open,
    /// One number, from 1 to this most.
    Number(u64),
}

/// What may still stand at each place of a line.
#[derive(Clone, Copy)]
pub(crate) struct Places {
    /// The place of the word that is no option.
    pub(crate) name: Place,
    pub(crate) trace: Place,
    pub(crate) rounds: Place,
    pub(crate) workers: Place,
}

/// The places of a command's line.
pub(crate) fn places_of(command: CommandName) -> Places
    ensures { result ≡ places command }
{
    let plain = Places {
        name: Place::Open,
        trace: Place::Closed,
        rounds: Place::Closed,
        workers: Place::Closed,
    };
    match command {
        CommandName::Serve => Places {
            trace: Place::Open,
            rounds: Place::Number(ROUNDS_MOST),
            ..plain
        },
        CommandName::Check | CommandName::Audit => plain,
        CommandName::Exercise => Places {
            name: Place::Number(SUBSCRIBERS_MOST),
            workers: Place::Number(WORKERS_MOST),
            ..plain
        },
    }
}

/// Whether the value may stand at the place.
fn takes(place: Place, value: &str) -> bool
    ensures { IsTrue result ↔ Takes place value.now }
{
    match place {
        Place::Closed => false,
        Place::Open => true,
        Place::Number(most) => is_number(value, most),
    }
}

/// The places that are left after the piece, where it may stand at its own.
pub(crate) fn places_left(places: Places, piece: Piece<'_>) -> Option<Places>
    ensures { let p = piece_of piece.entry in let place = place_at places (place_of p) in
        MatchOption result (¬ Takes place (value_of p)) (λ r. Takes place (value_of p) × (r ≡ without places (place_of p))) }
{
    match piece {
        Piece::Name(value) if takes(places.name, value) => Some(Places {
            name: Place::Closed,
            ..places
        }),
        Piece::Option(OptionName::Trace, value) if takes(places.trace, value) => Some(Places {
            trace: Place::Closed,
            ..places
        }),
        Piece::Option(OptionName::Rounds, value) if takes(places.rounds, value) => Some(Places {
            rounds: Place::Closed,
            ..places
        }),
        Piece::Option(OptionName::Workers, value) if takes(places.workers, value) => Some(Places {
            workers: Place::Closed,
            ..places
        }),
        _ => None,
    }
}
