//! The laws of a shard's journal.
ghost use Rattle.std.specs.Prelude.{◌≡◌, ◌≢◌, ◌⊎◌, ◌%◌, ◌<◌, ◌≤◌, ◌++◌, ℕ, Bool, true, false, List, [], ◌∷◌, Some, None, length, max, slice_get};
ghost use mathlib.Core.Logic.{◌↔◌};
ghost use Rattle.std.specs.List.{All, AllPairs, Contains};
ghost use Rattle.bng_base.specs.declared.address.SessionNo.{SessionNo};
ghost use Rattle.bng_base.specs.declared.item.ItemKind.TheVariants.{Tick};
ghost use Rattle.bng_base.specs.declared.book.Profile.{Profile};
ghost use Rattle.bng_base.specs.declared.settings.Static.{Static};
ghost use Rattle.bng_meter.specs.Bucket.{Offer};
ghost use Rattle.bng_sessions.specs.Sessions.{IsNumberOf, value_at};
ghost use Rattle.bng_term.specs.Lifetimes.{is_over, seconds_after};
ghost use Rattle.bng_term.specs.Runs.{last_of};
ghost use Rattle.bng_steps.specs.declared.session.Lease.{Lease};
ghost use Rattle.bng_steps.specs.declared.session.Session.{Session};
ghost use Rattle.bng_steps.specs.Interims.{reported_at, taken, with_report};
ghost use Rattle.bng_steps.specs.Passing.{passed_at};
ghost use Rattle.bng_steps.specs.Silence.{IsLimitedBy, IsOld, IsSilent, Moments, Reckons, TicksThrough, left_by};
ghost use Rattle.bng_steps.specs.Tenures.{Tenure};
ghost use Rattle.bng_steps.specs.Timers.{NoneIsDue};
ghost use Rattle.bng_steps.specs.declared.rules.Rules.{Rules};
ghost use Rattle.bng_steps.specs.Course.{Course, Move, NoneRenews, Offers, Renews, Rises, Stands, marked, rate_of};
ghost use Rattle.bng_steps.specs.Deed.{Deed};
ghost use Rattle.bng_steps.specs.Opening.{opened_slots};
ghost use Rattle.bng_steps.specs.State.{State, leaves, settled};
ghost use Rattle.bng_steps.specs.Step.{Step};

/// A shard has a moment and meters of each of its session numbers, and its sessions stand under their own numbers. It is so at the opening, and
/// from then on.
pub fn shards_stand()
    ensures opened { (number : ℕ) (profiles : List Profile) (circuits : List Static) (now : ℕ) → number < 64 → All (λ c. IsNumberOf number c.session.0) circuits → AllPairs (λ a b. a.session ≢ b.session) circuits
        → Stands (opened_slots number profiles circuits now) }
    ensures kept { (r : Rules) (s : State) (limited : Bool) (d : Deed) → Step r s limited d → Stands s → Stands d.next }
    ensures settled { (s : State) → Stands s → Stands (settled s) }
{}

/// From an entry that begins a term of a session, or changes its profile, on, until another entry does, the meter of a direction marks the
/// packets for which it is asked as RFC 2697 has it, by a meter of the profile's rate that started full at that entry: those that are Red are
/// dropped as Exceeded, and the others go on. Where the profile has no rate, all go on. It is so too of the term of a provisioned circuit from
/// the opening on. The moments of the entries never fall.
pub fn meters_colour_what_is_offered()
    ensures renewed { (r : Rules) (s : State) (limited : Bool) (d : Deed) (n place : ℕ) (input : Bool) (moves : List Move) (offers : List Offer) (reds : List Bool) → Stands s → Step r s limited d → Renews r s d n place
        → Course r d.next moves → Rises d.entry.moment moves → NoneRenews r n d.next moves → Offers input n r d.next moves offers reds
        → reds ≡ marked (rate_of input (slice_get r.profiles place)) d.entry.moment offers }
    ensures opened { (r : Rules) (number : ℕ) (circuits : List Static) (now : ℕ) (c : Static) (input : Bool) (moves : List Move) (offers : List Offer) (reds : List Bool) → number < 64
        → All (λ c. IsNumberOf number c.session.0) circuits → AllPairs (λ a b. a.session ≢ b.session) circuits → Contains circuits c
        → Course r (opened_slots number r.profiles circuits now) moves → Rises now moves → NoneRenews r c.session.0 (opened_slots number r.profiles circuits now) moves
        → Offers input c.session.0 r (opened_slots number r.profiles circuits now) moves offers reds → reds ≡ marked (rate_of input (slice_get r.profiles c.profile)) now offers }
{}

/// The moment that a shard keeps for a session is that of the last entry of its journal at which a packet of the session passed, from it or
/// towards it, and else what it was before the journal; it is 0 at the opening. So the silence of a live term, which counts from that moment
/// or from the term's beginning where that is later, is read off the journal.
pub fn moments_are_of_packets()
    ensures along { (r : Rules) (s : State) (n : SessionNo) (moves : List Move) (moments : List ℕ) → Stands s → IsNumberOf s.sessions.shard n.0 → Course r s moves → Moments n.0 r s moves moments
        → passed_at (left_by s moves).passed n ≡ last_of (passed_at s.passed n) moments }
    ensures opened { (number : ℕ) (profiles : List Profile) (circuits : List Static) (now : ℕ) (n : SessionNo) → passed_at (opened_slots number profiles circuits now).passed n ≡ 0 }
{}

/// The limits of a live term, and the moment from which they count, are those of before the step; or the step's entry is a CoA-Request that
/// changes those that it names; or the Access-Accept that begins the term, which then counts from that entry.
pub fn limits_are_told()
    ensures { (r : Rules) (s : State) (limited : Bool) (d : Deed) (n : ℕ) (x : Session) (l : Lease) → Step r s limited d → value_at d.next.sessions n ≡ Some x → x.lease ≡ Some l → IsLimitedBy r s d n l }
{}

/// No live term knows of a later packet than its session's last, which is no later than the shard's last entry. It is so at the opening, and from
/// then on, while the moments of entries never fall.
pub fn terms_know_of_no_later_packet()
    ensures opened { (number : ℕ) (profiles : List Profile) (circuits : List Static) (now : ℕ) → AllPairs (λ a b. a.session ≢ b.session) circuits → Reckons now (opened_slots number profiles circuits now) }
    ensures kept { (r : Rules) (s : State) (limited : Bool) (d : Deed) (moment : ℕ) → Step r s limited d → Stands s → moment ≤ d.entry.moment → Reckons moment s → Reckons d.entry.moment d.next }
    ensures settled { (moment : ℕ) (s : State) → Reckons moment s → Reckons moment (settled s) }
{}

/// A Tick ends a live term by Idle Timeout (4) only where it was silent for its Idle-Timeout, and by Session Timeout (5) only where it has
/// lasted for its Session-Timeout and was not so silent (RFC 2865 sections 5.27 and 5.28, RFC 2866 section 5.10). No other entry ends
/// one so. Where no session is due, no live term has lasted so long, and none was so silent. What these are by the journal `limits_are_told` and `moments_are_of_packets` say.
pub fn ticks_end_what_is_over()
    ensures idle { (r : Rules) (s : State) (limited : Bool) (d : Deed) (t : Tenure) → Step r s limited d → d.entry.item.kind ≡ Tick → Contains d.next.terms t → t.cause ≡ Some 4 → Contains s.terms t ⊎ IsSilent s d.entry.moment t.term.serial }
    ensures session { (r : Rules) (s : State) (limited : Bool) (d : Deed) (t : Tenure) → Step r s limited d → d.entry.item.kind ≡ Tick → Contains d.next.terms t → t.cause ≡ Some 5 → Contains s.terms t ⊎ IsOld s d.entry.moment t.term.serial }
    ensures only { (r : Rules) (s : State) (limited : Bool) (d : Deed) (t : Tenure) (c : ℕ) → Step r s limited d → d.entry.item.kind ≢ Tick → Contains d.next.terms t → t.cause ≡ Some c → (c ≡ 4) ⊎ (c ≡ 5) → Contains s.terms t }
    ensures none_silent { (s : State) (moment now n : ℕ) (x : Session) (l : Lease) → NoneIsDue s now → value_at s.sessions n ≡ Some x → x.lease ≡ Some l → leaves x ≡ false → Reckons moment s
        → is_over l.life.limits.idle_timeout (max l.life.began (passed_at s.passed x.number)) now ≡ false }
    ensures none_old { (s : State) (now n : ℕ) (x : Session) (l : Lease) → NoneIsDue s now → value_at s.sessions n ≡ Some x → x.lease ≡ Some l → leaves x ≡ false
        → is_over l.life.limits.session_timeout l.life.began now ≡ false }
{}

/// After a Tick no session of the shard is due; or 64 deadlines were handled, and each came no later than each that still is due of another
/// session. The Tick leaves the other sessions alone, but that the calls of a tunnel that it clears end first.
pub fn ticks_take_what_is_due()
    ensures { (r : Rules) (s : State) (limited : Bool) (d : Deed) → Step r s limited d → d.entry.item.kind ≡ Tick → TicksThrough s d }
{}

/// Where one asks at any moments whether a session owes an Interim, and takes it where it does, the Interims of its live term are apart by
/// their interval, from the last one or the lease on, and one is taken wherever that has passed (RFC 2869 section 5.16). Taking one leaves the
/// other sessions alone.
pub fn interims_keep_their_interval()
    ensures apart { (x : Session) (l : Lease) (seconds : ℕ) (last moments : List ℕ) → x.lease ≡ Some l → length last ≡ 1024 → l.life.limits.interim ≡ Some seconds
        → AllPairs (λ a b. seconds_after seconds a ≤ b) (max l.life.began (reported_at last x.number) ∷ taken last x moments) }
    ensures due { (x : Session) (l : Lease) (seconds now : ℕ) (last moments : List ℕ) → x.lease ≡ Some l → length last ≡ 1024 → l.life.limits.interim ≡ Some seconds
        → (taken last x (moments ++ now ∷ []) ≡ taken last x moments ++ now ∷ []) ↔ (seconds_after seconds (last_of (max l.life.began (reported_at last x.number)) (taken last x moments)) ≤ now) }
    ensures none { (x : Session) (l : Lease) (last moments : List ℕ) → x.lease ≡ Some l → length last ≡ 1024 → l.life.limits.interim ≡ None → taken last x moments ≡ [] }
    ensures others { (last : List ℕ) (now : ℕ) (m n : SessionNo) → m.0 % 1024 ≢ n.0 % 1024 → reported_at (with_report last now n) m ≡ reported_at last m }
{}
