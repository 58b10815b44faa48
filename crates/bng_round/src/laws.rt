//! What a closed round is.
ghost use Rattle.std.specs.Prelude.{List};
ghost use Rattle.bng_pool.specs.Seats.{PoolView};
ghost use Rattle.bng_round.specs.Closing.{IsClosed};
ghost use Rattle.bng_round.specs.Rounds.{RoundView, WorkerView};
ghost use Rattle.bng_round.specs.Views.{PlacedView};
ghost use Rattle.bng_round.specs.Was.{WasRound};

/// A round that was closed is a round as a trace holds it, whatever the number of its workers and however they took turns: each item of each
/// list stands once, at its place, in the journal of the shard that it is for or among the loose ones, and the entries of each worker in
/// their order; each journal is a run of steps within its allowance; the addresses that were claimed were free when the round opened, each
/// was claimed once, and those that were told to be held are. What the workers' tallies rose by together is what passed in all journals.
pub fn closed_rounds_are_rounds()
    ensures { (p : PoolView) (round : RoundView) (before workers : List WorkerView) (shards : List PlacedView) → IsClosed p round before workers shards → WasRound round before workers shards }
{}
