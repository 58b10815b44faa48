ghost use Rattle.std.specs.Prelude.{◌≡◌, ◌≢◌, MatchOption};
ghost use Rattle.bng_words.specs.Place.{word_of};
ghost use Rattle.bng_words.specs.declared.command_name.CommandName.{CommandName};

/// A command, without its values.
#[derive(Clone, Copy)]
pub(crate) enum CommandName {
    Serve,
    Check,
    Exercise,
    Audit,
}

/// The command of this word.
pub(crate) fn command_named(text: &str) -> Option<CommandName>
    ensures { MatchOption result ((k : CommandName) → text.now ≢ word_of k) (λ k. text.now ≡ word_of k) }
{
    if text == "serve" {
        Some(CommandName::Serve)
    } else if text == "check" {
        Some(CommandName::Check)
    } else if text == "exercise" {
        Some(CommandName::Exercise)
    } else if text == "audit" {
        Some(CommandName::Audit)
    } else {
        None
    }
}
