//! The law of the grammar.
ghost use Rattle.std.specs.Prelude.{◌≡◌, List};
ghost use Rattle.bng_words.specs.Words.{Text};
ghost use Rattle.bng_words.specs.Meaning.{Meaning, Says};

/// Words say one thing at most. So the command that [`crate::read`] answers is the only one that they are.
pub fn words_say_one_thing()
    ensures { (words : List Text) (m n : Meaning) → Says words m → Says words n → m ≡ n }
{}
