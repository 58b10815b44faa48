//! How far the script is: what has to happen before the odd subscribers end their links, and before the operator says
//! `stop`.
ghost use Rattle.std.specs.Prelude.{◌≡◌, ◌≤◌, ◌<◌, ◌+◌, ◌%◌, ◌↔◌, IsTrue, IsSome, IfSome, min, true, false};
ghost use Rattle.std.specs.Bool.{OnTrue, OnFalse};

/// How far the script is.
#[derive(Drop)]
pub(crate) struct Operator {
    subscribers: u32,
    /// How many have exchanged all packets.
    resting: u32,
    /// How many terms had an interim record acknowledged.
    reported: u32,
    /// How many terms of subscribers of odd number had their Stop acknowledged.
    stopped: u32,
    /// The next subscriber of odd number to end its link.
    next_to_end: u32,
    has_said_stop: bool,
    ghost few: { subscribers ≤ 4000 },
    ghost odd: { next_to_end % 2 ≡ 1 },
}

impl Operator {
    ghost use Rattle.bng_peer.specs.Operator.{progress_of, AllRest, AllStopped};

    /// Before anything was said.
    pub(crate) fn new(subscribers: u32) -> Operator
        requires { subscribers ≤ 4000 }
        ensures { progress_of result ≡ record { subscribers = subscribers; resting = 0; reported = 0; stopped = 0; next_to_end = 1; has_said_stop = false } }
    {
        Operator {
            subscribers,
            resting: 0,
            reported: 0,
            stopped: 0,
            next_to_end: 1,
            has_said_stop: false,
        }
    }

    /// One subscriber more has exchanged all packets.
    pub(crate) fn note_rest(&mut self)
        ensures { progress_of self.new ≡ record (progress_of self.old) { resting = min (self.old.resting + 1) 4294967295 } }
    {
        self.resting = self.resting.saturating_add(1);
    }

    /// The first interim record of one term more was acknowledged.
    pub(crate) fn note_report(&mut self)
        ensures { progress_of self.new ≡ record (progress_of self.old) { reported = min (self.old.reported + 1) 4294967295 } }
    {
        self.reported = self.reported.saturating_add(1);
    }

    /// The Stop of one subscriber of odd number more was acknowledged.
    pub(crate) fn note_stop(&mut self)
        ensures { progress_of self.new ≡ record (progress_of self.old) { stopped = min (self.old.stopped + 1) 4294967295 } }
    {
        self.stopped = self.stopped.saturating_add(1);
    }

    // Whether all packets are exchanged, and each term had an interim record acknowledged.
    fn all_rest(&self) -> bool
        ensures { IsTrue result ↔ (AllRest (progress_of self.now)) }
    {
        self.resting >= self.subscribers && self.reported >= self.subscribers
    }

    /// The next subscriber of odd number that is to end its link.
    pub(crate) fn take_ending(&mut self) -> Option<u32>
        ensures when { IsSome result ↔ ((AllRest (progress_of self.old)) × (self.old.next_to_end < self.old.subscribers)) }
        ensures odd { IfSome result (λ number. (number ≡ self.old.next_to_end) × (number % 2 ≡ 1)) }
        ensures next { IfSome result (λ number. progress_of self.new ≡ record (progress_of self.old) { next_to_end = number + 2 }) }
    {
        if !self.all_rest() || self.subscribers <= self.next_to_end {
            return None;
        }
        let number = self.next_to_end;
        self.next_to_end = number + 2;
        Some(number)
    }

    /// Whether the operator says `stop` now. It says so once.
    pub(crate) fn says_stop(&mut self) -> bool
        ensures when { IsTrue result ↔ ((AllRest (progress_of self.old)) × (AllStopped (progress_of self.old)) × (self.old.has_said_stop ≡ false)) }
        ensures said { OnTrue result (progress_of self.new ≡ record (progress_of self.old) { has_said_stop = true }) }
        ensures kept { OnFalse result (progress_of self.new ≡ progress_of self.old) }
    {
        let all = self.all_rest() && self.stopped >= self.subscribers / 2;
        if !all || self.has_said_stop {
            return false;
        }
        self.has_said_stop = true;
        true
    }
}
