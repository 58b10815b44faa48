//! What holds of every run, over its turns: what was taken and sent in them, and the states that the shards had.
ghost use Rattle.std.specs.Prelude.{◌≤◌, length, List, ℕ};
ghost use Rattle.bng_config.specs.declared.config.Config.{Config};
ghost use Rattle.bng_config.specs.Rules.{KeepsRules};
ghost use Rattle.bng_desk.specs.Model.{Desk};
ghost use Rattle.bng_desk.specs.Opening.{IsOpened};
ghost use Rattle.bng_gate.specs.Granted.{Granted};
ghost use Rattle.bng_gate.specs.Replied.{AreReplied};
ghost use Rattle.bng_gate.specs.Run.{turns_most};
ghost use Rattle.bng_gate.specs.Serving.{EndRun, endings_most, Made, MadeEnd, Run};

/// Each datagram of a run that is taken for the reply to a question comes from the configured server, and is one Access-Accept,
/// Access-Reject or Access-Challenge (RFC 2865 sections 4.2 to 4.4), signed for the Access-Request of that question. In an earlier turn
/// the question was open at a session of a shard and was asked. The request is the very one that was made for it then, with a draw from
/// the seed as its authenticator; it says the question, and was sent in that turn or in a later one before the reply.
pub fn replies_are_of_questions()
    ensures { (config : Config) (rounds : ℕ) (seed : List ℕ) (now wall : ℕ) (opening over : Desk) (turns : List Made) → IsOpened config rounds seed now wall opening → Run opening turns over → AreReplied config seed turns }
{}

/// Each peer that was told yes, by Success of CHAP (RFC 1994 section 4.2) or Authenticate-Ack of PAP (RFC 1334 section 2.2.2), was let
/// in by the configured server: of its circuit there is a login. Its question was heard in a turn: a datagram was taken on the access
/// port of the circuit, from that port's end, a frame of the circuit's MAC in its session, or at the end for tunnels from the peer of the
/// circuit's tunnel, a data message to its tunnel and session (RFC 2661 section 3.1), and in it stand the name and the proof of the
/// question, as the peer's authentication stood (an Authenticate-Request, or a Response to the Challenge of its link). In that turn or a
/// later one the question was asked; the Access-Request that was made for it then, with that name and proof, was sent in that turn or a
/// later one; and in a still later one its Access-Accept was taken, signed for this very request. No datagram of the server is that of
/// two logins, and no two logins of different questions have one draw as the authenticators of their requests. A yes to the peer of a tunnel
/// goes to the numbers that this peer gave its tunnel and a call, and the login is that of such a call. Each such yes was to be
/// sent for an entry of a shard: by the state in which that was handled, the login is the one of the question that the peer's link asked
/// last, and the link was accepted on it before, or the entry is this very Access-Accept. Each term of which a Start was formed in a turn
/// began in it, by an entry that is the Access-Accept of a login, on the circuit of its question and with the name in it as its User-Name.
pub fn logins_are_granted()
    ensures { (config : Config) (rounds : ℕ) (seed : List ℕ) (now wall : ℕ) (opening over last : Desk) (turns : List Made) (endings : List MadeEnd) → KeepsRules config → IsOpened config rounds seed now wall opening
        → Run opening turns over → EndRun over endings last → length turns ≤ turns_most → length endings ≤ endings_most → Granted config seed turns endings }
{}
