//! The laws that the steps of a link meet.
ghost use Rattle.std.specs.Prelude.{◌≡◌, ◌⊎◌, ℕ, Bool, List, Option, Some, None, IsSome, false};
ghost use Rattle.bng_ppp.specs.declared.rules.LcpInput.{LcpInput};
ghost use Rattle.bng_ppp.specs.declared.rules.LinkRules.{LinkRules};
ghost use Rattle.bng_ppp.specs.LcpState.{LcpState, is_opened};
ghost use Rattle.bng_ppp.specs.Said.{Said, said};
ghost use Rattle.bng_ppp.specs.declared.lcp_outcome.LcpOutcome.{LcpOutcome};
ghost use Rattle.std.specs.List.{All};
ghost use Rattle.bng_ppp.specs.LcpRelation.{LcpLinkSteps};
ghost use Rattle.bng_ppp.specs.declared.input.Input.{Input};
ghost use Rattle.bng_ppp.specs.declared.steps.Steps.{Steps};
ghost use Rattle.bng_ppp.specs.LinkRelation.{LinkSaid, LinkSteps, after_turn, ended_by};
ghost use Rattle.bng_ppp.specs.LinkStep.{link_said};
ghost use Rattle.bng_ppp.specs.LinkState.{LinkState, is_accepted, is_open, passes};
ghost use Rattle.std.specs.Prelude.{true, ◌<◌, ◌&&◌, length};
ghost use Rattle.bng_base.specs.PppGrammar.{ControlPacket, IsPpp, IsControlPacket, packet_text, ppp_text};
ghost use Rattle.bng_ppp.specs.Messages.{frame_text, ReadsBack};
ghost use Rattle.bng_ppp.specs.Phases.{KeepsPhases, is_begun};
ghost use Rattle.bng_ppp.specs.Claims.{Claim};
ghost use Rattle.bng_ppp.specs.Granting.{IsYes, MayAccept, gives_address, goes_by_itself, is_frame};
ghost use Rattle.bng_ppp.specs.Layers.{Turn};
ghost use Rattle.bng_ppp.specs.Saying.{Says};
ghost use Rattle.bng_ppp.specs.LinkFrame.{HearsOctets};
ghost use Rattle.bng_ppp.specs.Verdict.{Settles};
ghost use Rattle.bng_base.specs.declared.address.Ip4.{Ip4};

/// From one state of LCP one input leads to one state, and one list of frames is sent (RFC 1661 section 4): no two cases
/// of the relation hold at once.
pub fn lcp_has_one_outcome()
    ensures { (r : LinkRules) (told : LcpInput) (now : ℕ) (random : List ℕ) (old : LcpState) (says other : Said) (new next : LcpState)
        → LcpLinkSteps r told now random old says new → LcpLinkSteps r told now random old other next → (says ≡ other) × (new ≡ next) }
{}

/// From one state of a whole link one input leads to one state, and one list of frames, one question and one cause are told:
/// no two cases of the relation hold at once.
pub fn link_has_one_outcome()
    ensures { (r : LinkRules) (now : ℕ) (random : List ℕ) (what : Input) (old : LinkState) (says other : LinkSaid) (new next : LinkState)
        → LinkSteps r what now random old says new → LinkSteps r what now random old other next → (says ≡ other) × (new ≡ next) }
{}

/// Each frame that a step of LCP alone sends reads back as the packet that it is the text of.
pub fn lcp_frames_read_back()
    ensures { (r : LinkRules) (told : LcpInput) (now : ℕ) (random : List ℕ) (old new : LcpState) (steps : LcpOutcome)
        → LcpLinkSteps r told now random old (said steps) new → All (λ f. ReadsBack f.payload) steps.outs.items }
{}

/// Each frame that a step of a whole link sends reads back as the packet that it is the text of.
pub fn link_frames_read_back()
    ensures { (r : LinkRules) (now : ℕ) (random : List ℕ) (what : Input) (old new : LinkState) (steps : Steps)
        → LinkSteps r what now random old (link_said steps) new → All (λ f. ReadsBack f.payload) steps.layer.outs.items }
{}

/// A frame that is the text of a packet of fewer than 65,536 octets reads back as that packet, and is the text of no other: what
/// is read of the frames that a step sends is what the relation of the step names.
pub fn frames_read_back()
    ensures frame { (n : ℕ) (info : List ℕ) → n < 65536 → IsPpp (record { protocol = n; info = info }) (ppp_text (record { protocol = n; info = info })) }
    ensures packet { (p : ControlPacket) → length (packet_text p) < 65536 → IsControlPacket p (packet_text p) }
    ensures one { (n m : ℕ) (p q : ControlPacket) → n < 65536 → m < 65536 → length (packet_text p) < 65536 → frame_text n p ≡ frame_text m q → (n ≡ m) × (p ≡ q) }
{}

/// A step of a whole link keeps the phases (RFC 1661 section 3.2), which a new link keeps: whatever it is told, by a frame of the peer
/// (`heard`), and by a verdict on the question that is open (`settled`).
pub fn steps_keep_phases()
    ensures steps { (r : LinkRules) (now : ℕ) (random : List ℕ) (what : Input) (old : LinkState) (says : LinkSaid) (new : LinkState)
        → LinkSteps r what now random old says new → KeepsPhases old → KeepsPhases new }
    ensures heard { (r : LinkRules) (octets : List ℕ) (now : ℕ) (random : List ℕ) (old : LinkState) (turn : Turn)
        → HearsOctets r octets now random old turn → KeepsPhases old → KeepsPhases (after_turn turn) }
    ensures settled { (r : LinkRules) (found : Bool) (lease : Option Ip4) (text : List ℕ) (now : ℕ) (random : List ℕ) (old : LinkState) (turn : Turn)
        → Settles (is_open old.auth) found r lease text now random old turn → KeepsPhases old → KeepsPhases (after_turn turn) }
{}

/// Where LCP finished in a step (This-Layer-Finished, RFC 1661 section 4.4), it is not Opened after the step, so no term is live then
/// (`phases_tell`): whatever the link is told, by a frame of the peer, and by a verdict. It is so of every state.
pub fn finished_links_are_down()
    ensures steps { (r : LinkRules) (now : ℕ) (random : List ℕ) (what : Input) (old : LinkState) (says : LinkSaid) (new : LinkState)
        → LinkSteps r what now random old says new → says.finished ≡ true → is_opened new.lcp.lcp.state ≡ false }
    ensures heard { (r : LinkRules) (octets : List ℕ) (now : ℕ) (random : List ℕ) (old : LinkState) (turn : Turn)
        → HearsOctets r octets now random old turn → turn.finished ≡ true → is_opened (after_turn turn).lcp.lcp.state ≡ false }
    ensures settled { (r : LinkRules) (asked found : Bool) (lease : Option Ip4) (text : List ℕ) (now : ℕ) (random : List ℕ) (old : LinkState) (turn : Turn)
        → Settles asked found r lease text now random old turn → turn.finished ≡ true → is_opened (after_turn turn).lcp.lcp.state ≡ false }
{}

/// While a link keeps its phases (RFC 1661 section 3.2), data passes only for a peer that was accepted and once IPCP is Opened,
/// and a term is live only while LCP is Opened.
pub fn phases_tell()
    ensures passing { (s : LinkState) → KeepsPhases s → passes s ≡ true → (is_accepted s.auth ≡ true) × (is_opened s.ipcp.machine.state ≡ true) }
    ensures term { (s : LinkState) → KeepsPhases s → s.live ≡ true → is_opened s.lcp.lcp.state ≡ true }
{}

/// A peer is told that it is accepted, by Success of CHAP (RFC 1994 section 4.2) or Authenticate-Ack of PAP (RFC 1334 section
/// 2.2.2), and is accepted, only where it was accepted before or by the verdict yes on the question that is open. It is so of
/// every state.
pub fn yes_needs_a_verdict()
    ensures said { (r : LinkRules) (now : ℕ) (random : List ℕ) (what : Input) (old : LinkState) (says : LinkSaid) (new : LinkState)
        → LinkSteps r what now random old says new → All (λ f. IsYes f → MayAccept what old.auth) says.outs }
    ensures accepted { (r : LinkRules) (now : ℕ) (random : List ℕ) (what : Input) (old : LinkState) (says : LinkSaid) (new : LinkState)
        → LinkSteps r what now random old says new → is_accepted new.auth ≡ true → MayAccept what old.auth }
{}

/// A question is open only where a step asks it or where it was open before, and only a frame makes a link ask: a peer whose
/// authentication has begun, of whom no question is open and who is not accepted. Authentication that begins, begins without a
/// question and with a peer that is not accepted. It is so of every state.
pub fn questions_open_by_asking()
    ensures asked { (r : LinkRules) (now : ℕ) (random : List ℕ) (what : Input) (old : LinkState) (says : LinkSaid) (new : LinkState) (claim : Claim)
        → LinkSteps r what now random old says new → says.asked ≡ Some claim → (is_open new.auth ≡ true) × (is_begun old.auth ≡ true) × (is_open old.auth ≡ false) × (is_accepted old.auth ≡ false) }
    ensures opens { (r : LinkRules) (now : ℕ) (random : List ℕ) (what : Input) (old : LinkState) (says : LinkSaid) (new : LinkState)
        → LinkSteps r what now random old says new → is_open new.auth ≡ true → IsSome says.asked ⊎ (is_open old.auth ≡ true) }
    ensures begun { (r : LinkRules) (now : ℕ) (random : List ℕ) (what : Input) (old : LinkState) (says : LinkSaid) (new : LinkState)
        → LinkSteps r what now random old says new → is_begun new.auth ≡ true → is_begun old.auth ≡ false → (is_open new.auth ≡ false) × (is_accepted new.auth ≡ false) }
    ensures same { (r : LinkRules) (now : ℕ) (random : List ℕ) (what : Input) (old : LinkState) (says : LinkSaid) (new : LinkState)
        → LinkSteps r what now random old says new → is_accepted new.auth ≡ true → (is_open old.auth ≡ true) ⊎ (is_accepted old.auth ≡ true) }
    ensures timer { (r : LinkRules) (now : ℕ) (random : List ℕ) (what : Input) (old : LinkState) (says : LinkSaid) (new : LinkState)
        → LinkSteps r what now random old says new → is_frame what ≡ false → says.asked ≡ None }
{}

/// What a link asks stands in the frame that it hears: the name and the password of an Authenticate-Request of PAP (RFC 1334 section
/// 2.2.1), or the name and the Value of a Response of CHAP to the Challenge that the link had sent (RFC 1994 section 4.1).
pub fn questions_stand_in_frames()
    ensures { (r : LinkRules) (octets : List ℕ) (now : ℕ) (random : List ℕ) (old : LinkState) (after : Turn) (claim : Claim)
        → HearsOctets r octets now random old after → after.asked ≡ Some claim → Says old.auth octets claim }
{}

/// A live term lasts until the step that tells its end: by itself, by frames of the peer and by the time, it ends only with a cause, where
/// LCP leaves Opened (RFC 1661 section 3.2) or IPCP finishes. A term begins by nothing but the verdict yes with an address on the question
/// that is open, and begins then. It is so of every state.
pub fn terms_last()
    ensures lasts { (r : LinkRules) (now : ℕ) (random : List ℕ) (what : Input) (old : LinkState) (says : LinkSaid) (new : LinkState)
        → LinkSteps r what now random old says new → goes_by_itself what ≡ true → old.live ≡ true → says.term_ended ≡ None → new.live ≡ true }
    ensures heard { (r : LinkRules) (octets : List ℕ) (now : ℕ) (random : List ℕ) (old : LinkState) (turn : Turn)
        → HearsOctets r octets now random old turn → old.live ≡ true → ended_by turn.link.live turn.left turn.ended 1 ≡ None → (after_turn turn).live ≡ true }
    ensures begins { (r : LinkRules) (now : ℕ) (random : List ℕ) (what : Input) (old : LinkState) (says : LinkSaid) (new : LinkState)
        → LinkSteps r what now random old says new → (gives_address what && is_open old.auth) ≡ true → new.live ≡ true }
    ensures settled { (r : LinkRules) (a : Ip4) (text : List ℕ) (now : ℕ) (random : List ℕ) (old : LinkState) (turn : Turn)
        → Settles true true r (Some a) text now random old turn → (after_turn turn).live ≡ true }
    ensures none { (r : LinkRules) (now : ℕ) (random : List ℕ) (what : Input) (old : LinkState) (says : LinkSaid) (new : LinkState)
        → LinkSteps r what now random old says new → (gives_address what && is_open old.auth) ≡ false → old.live ≡ false → new.live ≡ false }
{}
