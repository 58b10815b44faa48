//! What holds of a shard's tunnels, whatever they hear.
ghost use Rattle.std.specs.Prelude.{◌≡◌, ◌≢◌, ◌<◌, ℕ, List, true, false, find, length, slice_get, Some};
ghost use Rattle.bng_base.specs.declared.settings.Lac.{Lac};
ghost use Rattle.bng_l2tp_wire.specs.Messages.{ControlMessage};
ghost use Rattle.bng_l2tp_wire.specs.declared.message.TheConstants.{SCCRQ};
ghost use Rattle.bng_l2tp_reliable.specs.declared.answers.Due.TheVariants.{Hello};
ghost use Rattle.bng_l2tp_reliable.specs.Timers.{never, due_of};
ghost use Rattle.bng_l2tp_wire.specs.Judge.{is_type};
ghost use Rattle.bng_l2tp_wire.specs.Values.{message_type, assigned_tunnel};
ghost use Rattle.bng_lns.specs.declared.place.TunnelPlace.{TunnelPlace};
ghost use Rattle.bng_lns.specs.declared.outcome.Came.{Came};
ghost use Rattle.bng_lns.specs.Places.{is_again, is_due};
ghost use Rattle.bng_lns.specs.Tunnels.{TunnelsState, vacant, lac_of, secret_of, IsGiven, heard_by, hear};
ghost use Rattle.bng_lns.specs.Timed.{reminded};

/// A number is given only where it has rested for 31 seconds since its tunnel was cleared, and it is the lowest such (RFC 2661 section
/// 5.7).
pub fn numbers_rest()
    ensures { (now : ℕ) (t : TunnelsState) → vacant now t ≢ 0 → IsGiven now t (vacant now t) }
{}

/// An SCCRQ of a peer and an Assigned Tunnel ID that have a tunnel makes none: it is that tunnel that takes it.
pub fn one_tunnel_a_request()
    ensures same { (name : List ℕ) (lacs : List Lac) (t : TunnelsState) (came : Came) (m : ControlMessage) (p : TunnelPlace)
        → m.tunnel ≡ 0 → is_type (message_type m.avps) SCCRQ ≡ true
        → find (is_again came.from (assigned_tunnel (secret_of (lac_of lacs came.from.ip)) m.avps)) t.places ≡ Some p
        → hear name lacs t came m ≡ heard_by t came m (Some p) }
    ensures none { (name : List ℕ) (lacs : List Lac) (t : TunnelsState) (came : Came) (m : ControlMessage) (p : TunnelPlace)
        → m.tunnel ≡ 0 → is_type (message_type m.avps) SCCRQ ≡ true
        → find (is_again came.from (assigned_tunnel (secret_of (lac_of lacs came.from.ip)) m.avps)) t.places ≡ Some p
        → length (hear name lacs t came m).after.places ≡ length t.places }
{}

/// A place is reminded at most twice at one moment. Where something is still due after the first time, it is a HELLO: the messages in
/// flight went out again first (RFC 2661 sections 5.5 and 5.8). After the second time nothing is.
pub fn due_is_done()
    ensures once { (now : ℕ) (t : TunnelsState) (k : ℕ) (p : TunnelPlace) → now < never
        → slice_get (reminded now t k).after.places k ≡ Some p → is_due now p ≡ true → due_of p.tunnel.channel now ≡ Hello }
    ensures twice { (now : ℕ) (t : TunnelsState) (k : ℕ) (p : TunnelPlace) → now < never
        → slice_get (reminded now (reminded now t k).after k).after.places k ≡ Some p → is_due now p ≡ false }
{}
