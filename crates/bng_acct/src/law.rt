//! What the calls of a spool promise beside each other, whatever their order.
ghost use Rattle.std.specs.Prelude.{◌≡◌, ℕ, List, ◌++◌, Some};
ghost use Rattle.bng_acct.specs.declared.sheet.Sheet.{Sheet};
ghost use Rattle.bng_acct.specs.Queue.{sheet_at};
ghost use Rattle.bng_acct.specs.Spool.{State};
ghost use Rattle.bng_acct.specs.World.{Event, Run, formed, handed, IsPart, Spares, IsOpen};

/// Over any run the records that were handed out, and then those that still wait, are a part of those that waited before
/// it and then those that were formed, in the order of forming: none is handed out twice or out of its turn.
pub fn records_go_out_in_their_order()
    ensures { (s end : State) (events : List Event) → Run s events end → IsPart (handed events ++ end.waiting) (s.waiting ++ formed events) }
{}

/// Over any run a record that no event acknowledges stays open as it was formed, but that Starts and Interims are forgotten
/// where all but Stops are.
pub fn records_stay_until_acknowledged()
    ensures { (s end : State) (events : List Event) (n : ℕ) (x : Sheet) → Run s events end → sheet_at s.sheets n ≡ Some x → Spares n x.record.status events → IsOpen end n x }
{}
