//! How far an exercise is, on a terminal.
ghost use Rattle.std.specs.Prelude.{◌≡◌};

use bng_base::RoundRecord;
use bng_plant::{Noted, Sink, Trace};
use itoa::Buffer;

/// How many rounds come between two that are shown.
const ROUNDS: u64 = 256;

/// A trace, and beside it a terminal. Where it shows, each 256th round writes there the seconds that the exercise has come to, over those
/// that were written before; [`Progress::clear`] takes them away.
#[derive(Drop)]
pub struct Progress<T: Trace + Drop, S: Sink + Drop> {
    trace: T,
    terminal: S,
    shows: bool,
}

impl<T: Trace + Drop, S: Sink + Drop> Progress<T, S> {
    pub fn new(trace: T, terminal: S, shows: bool) -> Progress<T, S> {
        Progress {
            trace,
            terminal,
            shows,
        }
    }

    /// Takes away what was shown last.
    pub fn clear(&mut self) {
        if self.shows {
            let _ = self.terminal.write(b"\r\x1b[K");
        }
    }

    // Shows a moment in milliseconds.
    fn show(&mut self, moment: u64)
        ensures { self.new.trace ≡ self.old.trace }
    {
        let _ = self.terminal.write(b"\rexercise: ");
        let _ = self
            .terminal
            .write(Buffer::new().format(moment / 1000).as_bytes());
        let _ = self.terminal.write(b" s of its clock");
    }

    // Shows the moment of a round, where it is one of those that are shown.
    fn show_round(&mut self, round: &RoundRecord)
        ensures { self.new.trace ≡ self.old.trace }
    {
        if self.shows && round.number % ROUNDS == 0 {
            self.show(round.moment);
        }
    }
}

impl<T: Trace + Drop, S: Sink + Drop> Trace for Progress<T, S> {
    ghost told = { λ p. T.told p.trace };

    fn start(&mut self, name: &str) -> Noted {
        self.trace.start(name)
    }

    fn note(&mut self, round: &RoundRecord) -> Noted {
        self.show_round(round);
        self.trace.note(round)
    }
}
