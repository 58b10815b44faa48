// What holds of all accounting, whoever calls it.
ghost use Rattle.std.specs.Prelude.{ℕ, ◌≡◌, ◌↔◌, [], List, None, Some};
ghost use Rattle.bng_base.specs.Chain.{Chain};
ghost use Rattle.bng_base.specs.declared.address.Peer.{Peer};
ghost use Rattle.bng_acct.specs.declared.facts.RecordNo.{RecordNo};
ghost use Rattle.bng_acct.specs.Spool.{Agree, unacked_stops};
ghost use Rattle.bng_billing.specs.declared.rules.BillingRules.{BillingRules};
ghost use Rattle.bng_billing.specs.State.{BillingState, IsNewBilling};
ghost use Rattle.bng_billing.specs.Invariant.{IsBilling};
ghost use Rattle.bng_billing.specs.Replies.{Takes};
ghost use Rattle.bng_billing.specs.Due.{IsResentBy};
ghost use Rattle.bng_billing.specs.Sending.{IsSentBy};
ghost use Rattle.bng_billing.specs.Calls.{BillingCall, Does, StopsAreAcknowledged};
ghost use Rattle.bng_billing.specs.Laws.{IsAcknowledgementOf, SaysFirst, SaysAgain, KeepsRecords};
ghost use Rattle.bng_billing.specs.Answered.{AreAnswered};
ghost use Rattle.bng_billing.specs.Sent.{ArePaired, AreRequests, StopsAreSent};

/// Over any calls from the opening on each record that is open waits in its order or is out, so none is lost; each request that is
/// out is of an open record, no two of one record's, and its octets are that record's Accounting-Request.
pub fn records_wait_or_are_out()
    ensures { (rules : BillingRules) (opening last : BillingState) (calls : List BillingCall) → IsNewBilling rules opening → Chain Does opening calls last → IsBilling last.client last.spool }
{}

/// A datagram that acknowledges a record comes from the server and is one packet, an Accounting-Response, signed for the
/// Accounting-Request of that very record, which was out under the packet's identifier and was sent, and is out no longer.
pub fn acknowledgements_answer_requests()
    ensures { (old new : BillingState) (from : Peer) (octets : List ℕ) (n : RecordNo) → IsBilling old.client old.spool → Takes old from octets (Some n) new → IsAcknowledgementOf old from octets n.0 new }
{}

/// What goes out for a record, the first time and again, reads as its Accounting-Request, with its digest as the Request
/// Authenticator.
pub fn requests_say_their_records()
    ensures first { (old new : BillingState) (now n id : ℕ) (octets : List ℕ) → IsSentBy old now n id octets new → SaysFirst old n id octets new }
    ensures again { (old new : BillingState) (now id : ℕ) (octets : List ℕ) → IsBilling old.client old.spool → IsResentBy old now id octets new → SaysAgain old id octets new }
{}

/// Over any calls from the opening on each datagram that acknowledges a record comes from the server that accounting was opened
/// with, and is one Accounting-Response, signed for the Accounting-Request of a record that got its number by an earlier call that
/// formed it. A later call gave the request out, and after that, and before the datagram, the outside sent it.
pub fn acknowledgements_follow_requests()
    ensures { (rules : BillingRules) (opening last : BillingState) (calls : List BillingCall) → IsNewBilling rules opening → Chain Does opening calls last → AreAnswered rules calls }
{}

/// No call but an acknowledgement takes a Stop that is out away, nor a Start or an Interim but for the stop.
pub fn records_stay_out_until_acknowledged()
    ensures { (old new : BillingState) (call : BillingCall) → IsBilling old.client old.spool → Does old call new → KeepsRecords old call new }
{}

/// Over any calls from the opening on no Stop is open at the end exactly where each Stop that was formed was acknowledged by a
/// datagram that was heard later. That the records and their terms agree is what `free` ensures.
pub fn stops_are_acknowledged()
    ensures { (rules : BillingRules) (opening last : BillingState) (calls : List BillingCall) → IsNewBilling rules opening → Chain Does opening calls last → Agree last.spool.sheets last.spool.held → ((unacked_stops last.spool ≡ []) ↔ StopsAreAcknowledged calls) }
{}

/// Over any calls from the opening on what is sent is the Accounting-Request of a record that one of the calls formed.
pub fn requests_are_of_records()
    ensures { (rules : BillingRules) (opening last : BillingState) (calls : List BillingCall) → IsNewBilling rules opening → Chain Does opening calls last → AreRequests rules calls }
{}

/// Where each request that is given out is told to be sent or not, and each Stop that was formed was acknowledged, the
/// Accounting-Request of each Stop was sent.
pub fn acknowledged_stops_were_sent()
    ensures { (rules : BillingRules) (opening last : BillingState) (calls : List BillingCall) → IsNewBilling rules opening → Chain Does opening calls last → ArePaired None calls → StopsAreAcknowledged calls → StopsAreSent rules calls }
{}
