//! The calls of a tunnel, in a vector by rising session number that is searched by halving.
ghost use Rattle.std.specs.Prelude.{◌≡◌, ◌<◌, ◌≤◌, ◌⊎◌, [], length, IfOk, IfErr, IfSome, IsSome};
ghost use Rattle.bng_lac.specs.Calls.{call_of, with_call, without_call};
ghost use Rattle.bng_lac.specs.Places.{IsHere, IsGap};

use crate::call::LacCall;
use std::alloc::{AllocError, Global};
use std::marker::Model;

/// How many calls a tunnel has at most.
pub const CALLS_MOST: usize = 1022;

/// The calls of a tunnel, one for each session. A contract sees their list, by rising session number.
#[derive(Drop)]
pub(crate) struct Calls {
    list: Vec<LacCall>,
}

impl Model for Calls {
    ghost use Rattle.std.specs.Prelude.{List, vec_capacity, ◌≤◌};
    ghost use Rattle.bng_lac.specs.declared.call.LacCall.{LacCall};
    ghost use Rattle.bng_lac.specs.LacState.{AreRising};

    ghost Value = { List LacCall };

    ghost view = { λ c. c.list.items };

    ghost invariant = { λ c. AreRising c.list.items × (1022 ≤ vec_capacity c.list) };
}

impl Calls {
    ghost use Rattle.bng_lac.specs.LacState.{AreRising};

    /// No calls, with room for 1,022.
    pub(crate) fn open(alloc: Global) -> Result<Calls, AllocError>
        ensures { IfOk result (λ c. c ≡ []) }
    {
        let list = Vec::with_capacity(alloc, CALLS_MOST)?;
        Ok(Calls { list })
    }

    // Where the call of a session stands, or where it would go.
    fn search(&self, session: u16) -> Result<usize, usize>
        ensures here { IfOk result (λ place. IsHere session self.now place) }
        ensures gap { IfErr result (λ place. IsGap session self.now place) }
    {
        self.list
            .binary_search_by_key(&session, |call| call.session.0)
    }

    /// The call of a session.
    pub(crate) fn find(&self, session: u16) -> Option<LacCall>
        ensures answer { result ≡ call_of session self.now }
        ensures session { IfSome result (λ c. c.session.0 ≡ session) }
    {
        match self.search(session) {
            Ok(place) => Some(self.list[place]),
            Err(_) => None,
        }
    }

    /// Puts a call at its place, where it stands in for one of the same session.
    pub(crate) fn put(&mut self, call: LacCall)
        requires { (length self.old < 1022) ⊎ IsSome (call_of call.session.0 self.old) }
        ensures { self.new ≡ with_call call self.old }
    {
        match self.search(call.session.0) {
            Ok(place) => self.list[place] = call,
            Err(place) => {
                let _ = self.list.insert(place, call);
            }
        }
    }

    /// Takes the call of a session out, where there is one.
    pub(crate) fn remove(&mut self, session: u16)
        ensures { self.new ≡ without_call session self.old }
    {
        if let Ok(place) = self.search(session) {
            let _ = self.list.remove(place);
        }
    }

    /// Takes all calls out.
    pub(crate) fn clear(&mut self)
        ensures { self.new ≡ [] }
    {
        self.list.clear();
    }

    /// The calls, by rising session number.
    pub(crate) fn as_slice(&self) -> &[LacCall]
        ensures calls { result.now ≡ self.now }
        ensures rising { AreRising self.now }
    {
        self.list.as_slice()
    }
}
