use arrayvec::ArrayVec;

/// An action of the automaton, by RFC 1661 section 4.4.
#[derive(Clone, Copy)]
pub enum Action {
    /// This-Layer-Up: the layers above learn that the automaton is Opened.
    Tlu,
    /// This-Layer-Down: the layers above learn that it is Opened no longer.
    Tld,
    /// This-Layer-Started: the lower layer is needed.
    Tls,
    /// This-Layer-Finished: the lower layer is needed no longer.
    Tlf,
    /// Initialize-Restart-Count.
    Irc,
    /// Zero-Restart-Count.
    Zrc,
    /// Send-Configure-Request.
    Scr,
    /// Send-Configure-Ack.
    Sca,
    /// Send-Configure-Nak, or Send-Configure-Reject.
    Scn,
    /// Send-Terminate-Request.
    Str,
    /// Send-Terminate-Ack.
    Sta,
    /// Send-Code-Reject.
    Scj,
    /// Send-Echo-Reply. It answers an Echo-Request, and nothing else.
    Ser,
}

impl Default for Action {
    ghost use Rattle.std.specs.Prelude.{◌≡◌};
    ghost use Rattle.bng_automaton.specs.declared.action.Action.TheVariants.{Tlu};

    ghost is_default = { λ action. action ≡ Tlu };

    /// What fills the unused places of a list.
    fn default() -> Action {
        Action::Tlu
    }
}

/// The actions of one step, in the order in which they are done.
pub type Actions = ArrayVec<Action, 3>;
