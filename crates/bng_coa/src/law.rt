//! The laws of the calls beside each other.
ghost use Rattle.std.specs.Prelude.{◌≡◌, ◌≤◌, ℕ, Bool, true, false, List, [], length};
ghost use Rattle.std.specs.List.{list_any, IsDistinct};
ghost use Rattle.bng_coa.specs.declared.request.ChangeRequest.{ChangeRequest};
ghost use Rattle.bng_coa.specs.Requests.{is_numbered};
ghost use Rattle.bng_coa.specs.Runs.{Event, Run, Rises, are_equal, share_number, settles, was_before};

/// After any list of calls from the opening on at most 256 requests are in hand or have a kept reply, no two of them are
/// equal, so none is taken twice, and no two in hand have one number.
pub fn requests_are_apart()
    ensures few { (events : List Event) (requests : List ChangeRequest) → Run [] events requests → length requests ≤ 256 }
    ensures keys { (events : List Event) (requests : List ChangeRequest) → Run [] events requests → IsDistinct are_equal requests }
    ensures numbers { (events : List Event) (requests : List ChangeRequest) → Run [] events requests → IsDistinct share_number requests }
{}

/// Where the moments of admission never fall, the requests stand in the order of these moments: the first reply, which is
/// forgotten for a new request where 256 stand, is the oldest.
pub fn requests_stand_in_order()
    ensures { (events : List Event) (requests : List ChangeRequest) → Rises 0 events → Run [] events requests → IsDistinct was_before requests }
{}

/// A request in hand stays in hand, as it is, until it is answered: whatever is true of one that is in hand under a number
/// is true of one after any list of calls that do not answer this number.
pub fn requests_stay_in_hand()
    ensures { (number : ℕ) (test : ChangeRequest → Bool) (events : List Event) (old new : List ChangeRequest)
        → ((r : ChangeRequest) → test r ≡ true → is_numbered number r ≡ true) → list_any (settles number) events ≡ false
        → Run old events new → list_any test old ≡ true → list_any test new ≡ true }
{}
