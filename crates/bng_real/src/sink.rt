//! Standard output and standard error.
ghost use Rattle.std.specs.Prelude.{◌≡◌, None};
ghost use Rattle.std.specs.Io.KnownBytes.{Appends};
ghost use Rattle.bng_base.specs.Causes.{HasCause};
ghost use Rattle.bng_plant.specs.Calls.{writes};

use bng_plant::{Sink, Wrote};
use std::io::Write;

/// Writes to a stream of the system, with no buffer between: of the program to standard output and standard error.
#[derive(Drop)]
pub struct StandardSink<W: Write + Drop> {
    stream: W,
    faults: u64,
}

impl<W: Write + Drop> StandardSink<W> {
    pub fn new(stream: W) -> StandardSink<W>
        ensures { result.faults ≡ 0 }
    {
        StandardSink { stream, faults: 0 }
    }

    /// How many writes failed.
    pub fn faults(&self) -> u64
        ensures { self.now.faults ≡ result }
    {
        self.faults
    }
}

impl<W: Write + Drop> Sink for StandardSink<W> {
    ghost told = { λ sink. record { bytes = None; faults = sink.faults } };

    fn write(&mut self, text: &[u8]) -> Wrote
        ensures bytes { writes None None text.now result }
        ensures cause { HasCause self.old.faults self.new.faults (result ≡ Wrote.Failed) }
        // Where a stream tells what it holds, it holds all of the text behind that.
        ensures whole { result ≡ Wrote.Ok → Appends (W.contents self.old.stream) (W.contents self.new.stream) text.now }
    {
        match self.stream.write_all(text) {
            Ok(()) => Wrote::Ok,
            Err(_) => {
                self.faults = self.faults.saturating_add(1);
                Wrote::Failed
            }
        }
    }
}
