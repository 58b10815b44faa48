// What holds of every lane, whoever calls it.
ghost use Rattle.std.specs.Prelude.{ℕ, List, Some, Option, Bool};
ghost use Rattle.bng_base.specs.declared.address.Peer.{Peer};
ghost use Rattle.bng_verdict.specs.declared.question.QuestionNo.{QuestionNo};
ghost use Rattle.bng_verdict.specs.declared.question.AuthAsk.{AuthAsk};
ghost use Rattle.bng_lane.specs.State.{LaneState, IsNewLane, noted};
ghost use Rattle.bng_lane.specs.Replies.{Takes};
ghost use Rattle.bng_lane.specs.Due.{GivesUp, IsResentBy};
ghost use Rattle.bng_lane.specs.Asking.{IsAskedBy};
ghost use Rattle.bng_lane.specs.Sends.{LaneAsk, Asks};
ghost use Rattle.bng_base.specs.Chain.{Chain};
ghost use Rattle.bng_lane.specs.declared.rules.LaneRules.{LaneRules};
ghost use Rattle.bng_lane.specs.Turns.{AreReplied, LaneTurn, Turns};
ghost use Rattle.bng_lane.specs.Laws.{IsReplyFor, SaysItsQuestion, KeepsRequests};

/// A datagram that answers a question comes from the server and is one packet, an Access-Accept, an Access-Reject or an
/// Access-Challenge, signed for the authenticator of the very request of the question, which was out under the packet's
/// identifier and is out no longer.
pub fn replies_answer_requests()
    ensures { (old new : LaneState) (from : Peer) (octets : List ℕ) (q : QuestionNo) → Takes old from octets (Some q) new → IsReplyFor old from octets q new }
{}

/// What is sent for a question reads as the Access-Request of that question, with the authenticator that was drawn for it, and
/// it is out under its identifier as the question's.
pub fn requests_say_their_questions()
    ensures { (now : ℕ) (old new : LaneState) (a : LaneAsk) → Asks now old a new → SaysItsQuestion old a new }
{}

/// Each call leaves the octets and the question of every request that is out before it and after it.
pub fn pending_stays()
    ensures take { (old new : LaneState) (from : Peer) (octets : List ℕ) (q : Option QuestionNo) → Takes old from octets q new → KeepsRequests old new }
    ensures give_up { (old new : LaneState) (now : ℕ) (q : Option QuestionNo) → GivesUp old now q new → KeepsRequests old new }
    ensures resend { (old new : LaneState) (now id : ℕ) (octets : List ℕ) → IsResentBy old now id octets new → KeepsRequests old new }
    ensures ask { (old new : LaneState) (now : ℕ) (ask : AuthAsk) (authenticator : List ℕ) (id : ℕ) (octets : List ℕ) → IsAskedBy old now ask authenticator id octets new → KeepsRequests old new }
    ensures note { (old : LaneState) (id : ℕ) (sent : Bool) → KeepsRequests old (noted id sent old) }
{}

/// Over the turns of a lane from its opening on, each datagram that is taken for the reply to a question comes from the server that
/// the lane was opened with, and is one Access-Accept, Access-Reject or Access-Challenge (RFC 2865 sections 4.2 to 4.4), signed for
/// the Access-Request of that question. The question was asked in an earlier turn; its request says it, and was sent in an earlier
/// turn.
pub fn replies_follow_requests()
    ensures { (rules : LaneRules) (opening last : LaneState) (turns : List LaneTurn) → IsNewLane rules opening → Chain Turns opening turns last → AreReplied rules turns }
{}
