//! What a judge of traces would find in a round that the desk held.
ghost use Rattle.std.specs.Prelude.{◌≡◌, ℕ, List, [], ◌∷◌};
ghost use Rattle.std.specs.List.{AllByRecursion};
ghost use Rattle.bng_base.specs.declared.book.Book.{Book};
ghost use Rattle.bng_base.specs.declared.item.Entry.{Entry};
ghost use Rattle.bng_base.specs.declared.item.Item.{Item};
ghost use Rattle.bng_engine.specs.Views.{ShardView};
ghost use Rattle.bng_pool.specs.Plain.{PlainView};
ghost use Rattle.bng_steps.specs.declared.rules.Rules.{Rules};
ghost use Rattle.bng_steps.specs.Protocol.{ShardState};
ghost use Rattle.bng_steps.specs.Rounds.{IsRound as IsTracedRound};
ghost use Rattle.bng_desk.specs.Items.{all_loose};
ghost use Rattle.bng_desk.specs.Round.{IsRound, Round};
ghost use Rattle.bng_desk.specs.Traced.{rounds_in, standing_after, standing_before};

/// A round of the desk with its one seat is a round as a trace holds it, of shards that all have the desk's rules: its items stand once each
/// in a journal or beside it, in order and in the shard of whose they are; each journal is a run of steps within its allowance; and the
/// addresses that were claimed were free, those that were told to be held are.
pub fn rounds_are_traced()
    ensures { (r : Rules) (shards : List (ShardView ShardState Entry)) (pool : PlainView) (tallies : List Book) (moment : ℕ) (items : List Item) (round : Round)
        → AllByRecursion (λ (v : ShardView ShardState Entry). v.state.rules ≡ r) shards → IsRound r shards pool tallies moment (items ∷ []) round
        → IsTracedRound r (standing_before shards pool) moment (items ∷ []) (rounds_in round.shards) (all_loose 0 (items ∷ []) round.whose) (standing_after shards round) }
{}
