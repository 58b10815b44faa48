//! What a shard keeps.
ghost use Rattle.std.specs.Prelude.{◌≡◌, ◌≤◌, ◌<◌, IfOk, length, replicate};
ghost use Rattle.bng_engine.specs.Quantities.{empty_book};
ghost use Rattle.bng_profile.specs.Books.{AreDifferent, names_of};

use crate::indexed::Indexed;
use bng_base::{Batch, Entry, OutRecord};
use bng_profile::Profiles;
use bng_steps::{ChangeAnswer, Rules, Served, ShardError, Terms};
use std::alloc::Global;

/// The fields of a shard. They stand in memory of their own, so that a shard is moved by one word.
pub(crate) struct Body {
    pub(crate) rules: Rules,
    pub(crate) served: Served<Indexed>,
    pub(crate) terms: Terms,
    pub(crate) profiles: Profiles,
    pub(crate) allowance: u32,
    // how many terms may still begin in the round
    pub(crate) left: u32,
    pub(crate) journal: Batch<Entry>,
    pub(crate) outs: Batch<OutRecord>,
    pub(crate) changed: Vec<ChangeAnswer>,
    pub(crate) room: usize,
    // whether a journal was handed out with its memory, and no list was given for the next ones since
    pub(crate) lent: bool,
}

impl Drop for Body {
    fn drop(self) {
        let Body {
            rules: _,
            served: _,
            terms: _,
            profiles: _,
            allowance: _,
            left: _,
            journal: _,
            outs: _,
            changed: _,
            room: _,
            lent: _,
        } = self;
    }
}

/// A book for each profile of these rules, in which nothing stands.
pub(crate) fn books_of(alloc: Global, rules: &Rules) -> Result<Profiles, ShardError>
    requires some_profile { 0 < length rules.now.profiles }
    requires few_profiles { length rules.now.profiles ≤ 16 }
    requires different { AreDifferent (names_of rules.now.profiles) }
    ensures names { IfOk result (λ p. p.names ≡ names_of rules.now.profiles) }
    ensures books { IfOk result (λ p. p.books ≡ replicate (length rules.now.profiles) empty_book) }
{
    match Profiles::open(alloc, rules.profiles.as_slice()) {
        Ok(profiles) => Ok(profiles),
        Err(_) => Err(ShardError::OutOfMemory),
    }
}
