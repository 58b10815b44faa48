// What holds of all calls, whoever makes them.
ghost use Rattle.std.specs.Prelude.{◌≡◌, ◌==◌, ◌||◌, ◌<◌, ◌≤◌, ℕ, Bool, List, Option, Some, sum_by};
ghost use Rattle.bng_base.specs.Chain.{Chain};
ghost use Rattle.bng_base.specs.Packet.{Packet as Bytes};
ghost use Rattle.bng_base.specs.declared.address.Peer.{Peer};
ghost use Rattle.bng_rad_client.specs.declared.pending.Pending.{Pending};
ghost use Rattle.bng_rad_client.specs.declared.rules.Lane.{Lane};
ghost use Rattle.bng_rad_client.specs.declared.rules.Lane.TheVariants.{Auth, Acct};
ghost use Rattle.bng_rad_client.specs.declared.rules.Owner.{Owner};
ghost use Rattle.bng_rad_client.specs.Replies.{takes};
ghost use Rattle.bng_failover.specs.declared.rules.DueSend.{DueSend};
ghost use Rattle.bng_failover.specs.declared.rules.FailoverRules.{FailoverRules};
ghost use Rattle.bng_failover.specs.declared.server.Server.{Server};
ghost use Rattle.bng_failover.specs.Asking.{IsAskedAt};
ghost use Rattle.bng_failover.specs.Due.{Whose, IsSent, IsGivenUp, NoneGivenUp};
ghost use Rattle.bng_failover.specs.Laws.{SaysAgain, IsSameOrSays};
ghost use Rattle.bng_failover.specs.State.{State, servers_of, IsOpened, IsDue};
ghost use Rattle.bng_failover.specs.Calls.{Call, Does, IsDueOf, EachOnce, answers, taken_in};
ghost use Rattle.bng_failover.specs.Sends.{IsTrailOf, WentInTurn, WentToEach, trails_of};
ghost use Rattle.bng_failover.specs.Servers.{request_at};

/// Over any calls from the opening on, of the requests that `ask` took in each was answered once, by a reply that matched or a
/// timeout, which named its owner, or it was withdrawn, or it is still in hand.
pub fn each_is_answered_once()
    ensures once { (rules : FailoverRules) (opening last : State) (calls : List Call) (lane : Lane) (test : Owner → Bool) → IsOpened rules opening → Chain Does opening calls last → EachOnce lane test calls last }
    ensures most { (rules : FailoverRules) (opening last : State) (calls : List Call) (lane : Lane) (test : Owner → Bool) → IsOpened rules opening → Chain Does opening calls last → sum_by (answers lane test) calls ≤ sum_by (taken_in lane test) calls }
{}

/// What is sent first for a request says what was asked, and each later send says the same as the send before: the octets are the
/// same, or they differ in the Identifier, in the value of the Message-Authenticator and, for an Accounting-Request, in the
/// authenticator alone.
pub fn each_send_says_the_same()
    ensures asked { (old new : List Server) (at : ℕ) (owner : Owner) (request secret : List ℕ) (now : ℕ) (peer : Peer) (frame : Bytes) → IsAskedAt old new at owner request secret now peer frame → SaysAgain request frame.payload }
    ensures sent { (lane : Lane) (old new : List Server) (secret : List ℕ) (tries now : ℕ) (owner : Owner) (peer : Peer) (frame : Bytes) → (h : IsSent lane old new secret tries now owner peer frame) → IsSameOrSays h.first.oldest.request.octets frame.payload }
{}

/// Over any calls from the opening on, what was sent for an Access-Request that is in hand went to each server before its own
/// `tries` times, in their order, and then to its own. Where a request times out, it went to each server `tries` times, and the
/// last time 3 s ago or longer; where `due` answers that none has timed out, that is so of no request in hand. It is said of each
/// request, also where several of one owner are in hand at once. Whatever `due` sends is of one request in hand.
pub fn each_server_is_sent_its_tries()
    ensures in_hand { (rules : FailoverRules) (opening last : State) (calls : List Call) → 0 < rules.tries → rules.tries < 256 → IsOpened rules opening → Chain Does opening calls last → (at id : ℕ) (r : Pending) → request_at last.auth at id ≡ Some r → WentInTurn rules.auth rules.tries (trails_of Auth calls at id).sends at r }
    ensures timed_out { (rules : FailoverRules) (opening last : State) (calls : List Call) → 0 < rules.tries → rules.tries < 256 → IsOpened rules opening → Chain Does opening calls last → (left : List Server) (now : ℕ) (owner : Owner) → (h : IsGivenUp last.auth left last.tries now owner) → WentToEach rules.auth rules.tries now (trails_of Auth calls h.at h.due.id).sends }
    ensures none { (rules : FailoverRules) (opening last : State) (calls : List Call) → 0 < rules.tries → rules.tries < 256 → IsOpened rules opening → Chain Does opening calls last → (now at id : ℕ) (r : Pending) → NoneGivenUp last.auth last.tries now → id < 256 → request_at last.auth at id ≡ Some r → ¬ (WentToEach rules.auth rules.tries now (trails_of Auth calls at id).sends) }
    ensures whose { (old new : State) (now : ℕ) (timeouts : Bool) (frame : Bytes) (result : Option DueSend) → IsDue old new now timeouts frame result → (whose : Option Whose) × IsDueOf old new now timeouts frame result whose }
{}

/// Over any calls from the opening on, all that was sent for a request in hand names its owner and says what was asked, whatever
/// calls came between and however often it changed its server.
pub fn all_sends_say_what_was_asked()
    ensures { (rules : FailoverRules) (opening last : State) (calls : List Call) (lane : Lane) → IsOpened rules opening → Chain Does opening calls last → (at id : ℕ) (r : Pending) → request_at (servers_of last lane) at id ≡ Some r → IsTrailOf (trails_of lane calls at id) id r }
{}

/// The codes of replies: of Access-Requests Access-Accept, Access-Reject and Access-Challenge (RFC 2865 section 4), of
/// Accounting-Requests Accounting-Response (RFC 2866 section 4.2).
pub fn replies_have_their_codes()
    ensures auth { (code : ℕ) → takes Auth code ≡ ((code == 2) || (code == 3) || (code == 11)) }
    ensures acct { (code : ℕ) → takes Acct code ≡ (code == 5) }
{}
