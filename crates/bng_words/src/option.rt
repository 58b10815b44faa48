ghost use Rattle.std.specs.Prelude.{◌≡◌, ◌≢◌, MatchOption};
ghost use Rattle.bng_words.specs.Words.{dashed};
ghost use Rattle.bng_words.specs.declared.option.OptionName.{OptionName};

/// An option of some command.
#[derive(Clone, Copy)]
pub(crate) enum OptionName {
    Trace,
    Rounds,
    Workers,
}

/// The option that is written so.
pub(crate) fn option_of(text: &str) -> Option<OptionName>
    ensures { MatchOption result ((x : OptionName) → text.now ≢ dashed x) (λ x. text.now ≡ dashed x) }
{
    if text == "--trace" {
        Some(OptionName::Trace)
    } else if text == "--rounds" {
        Some(OptionName::Rounds)
    } else if text == "--workers" {
        Some(OptionName::Workers)
    } else {
        None
    }
}
