//! The laws of terms.
ghost use Rattle.std.specs.Prelude.{◌≡◌, ℕ, ◌+◌, ◌<◌, ◌≤◌, List, [], ◌∷◌, ◌++◌, AllPairs, IsSome, IsSomeAnd, IfSome, None, Some};
ghost use mathlib.Core.Logic.{◌↔◌};
ghost use Rattle.bng_term.specs.declared.limits.Limits.{Limits};
ghost use Rattle.bng_term.specs.Lifetimes.{Life, HasAllowedInterval, leased, cause_of, deadline_of, seen, seconds_after};
ghost use Rattle.bng_term.specs.Runs.{Event, after, cause_after, last_of, packets, reports, Rises, IsIdle, IsAged};

/// Where a cause holds, the deadline is there and has come, since a term knows of no packet later than the last. A
/// deadline comes too early only where a packet passed of which the term does not know yet.
pub fn deadlines_are_not_late()
    ensures not_late { (life : Life) (passed now : ℕ) → life.idle_from ≤ passed → IsSome (cause_of life.limits life.began passed now)
        → IsSomeAnd (deadline_of life) (λ at. at ≤ now) }
    ensures exact { (life : Life) (passed now : ℕ) → life.idle_from ≡ passed
        → IsSome (cause_of life.limits life.began passed now) ↔ IsSomeAnd (deadline_of life) (λ at. at ≤ now) }
{}

/// After a look that found no cause, the deadline is yet to come.
pub fn looks_go_on()
    ensures { (life : Life) (passed now : ℕ) → cause_of life.limits life.began passed now ≡ None
        → IfSome (deadline_of (seen life passed)) (λ at. now < at) }
{}

/// What looks answer after any list of events since the lease, in moments that never fall. Of these, packets of data alone
/// count against the Idle-Timeout: no look, no Interim, no change of limits, and control traffic is no event at all.
pub fn looks_tell_silence()
    ensures idle { (limits : Limits) (lease now : ℕ) (events : List Event) → Rises lease events now
        → (cause_after limits lease events now ≡ Some 4) ↔ IsIdle limits lease events now }
    ensures session { (limits : Limits) (lease now : ℕ) (events : List Event) → Rises lease events now
        → (cause_after limits lease events now ≡ Some 5) ↔ (IsAged limits lease events now × ¬ IsIdle limits lease events now) }
    ensures deadline { (limits : Limits) (lease now : ℕ) (events : List Event) → Rises lease events now
        → IsSome (cause_after limits lease events now)
        → IsSomeAnd (deadline_of (after (leased limits lease) lease events)) (λ at. at ≤ now) }
    ensures packet { (life : Life) (lease moment : ℕ) (events : List Event)
        → after life lease (events ++ Event.Packet moment ∷ []) ≡ after life lease events }
{}

/// Where one asks at any list of moments whether an Interim is due, and takes it where it is, the Interims keep their
/// interval, from the last one or the lease on. One is taken wherever the interval has passed.
pub fn interims_keep_their_interval()
    ensures apart { (life : Life) (seconds : ℕ) (moments : List ℕ) → life.limits.interim ≡ Some seconds
        → AllPairs (λ a b. seconds_after seconds a ≤ b) (life.last_report ∷ reports life moments) }
    ensures minute { (life : Life) (moments : List ℕ) → HasAllowedInterval life.limits
        → AllPairs (λ a b. a + 60000 ≤ b) (life.last_report ∷ reports life moments) }
    ensures due { (life : Life) (seconds now : ℕ) (moments : List ℕ) → life.limits.interim ≡ Some seconds
        → (reports life (moments ++ now ∷ []) ≡ reports life moments ++ now ∷ [])
        ↔ (seconds_after seconds (last_of life.last_report (reports life moments)) ≤ now) }
    ensures none { (life : Life) (moments : List ℕ) → life.limits.interim ≡ None → reports life moments ≡ [] }
{}
