ghost use Rattle.std.specs.Prelude.{◌≢◌, ◌↔◌, IsTrue};
ghost use Rattle.bng_words.specs.Words.{IsName, IsValue, dashed};
ghost use Rattle.bng_words.specs.Word.{IsWord};
ghost use Rattle.bng_words.specs.declared.option.OptionName.{OptionName};

use crate::option::{OptionName, option_of};

/// What a word of the line is.
#[derive(Clone, Copy)]
pub(crate) enum Word<'a> {
    /// No option.
    Name(&'a str),
    /// An option whose value is the next word.
    Flag(OptionName),
    /// An option with its value.
    Joined(OptionName, &'a str),
    /// None of these.
    Other,
}

/// Whether the word is no option: it begins with no `-`.
pub(crate) fn is_name(word: &str) -> bool
    ensures { IsTrue result ↔ IsName word.now }
{
    match word.as_bytes() {
        [] => true,
        [first, ..] => *first != b'-',
    }
}

/// Whether the word can be the value of an option: it is not empty and begins with no `-`.
pub(crate) fn is_value(word: &str) -> bool
    ensures { IsTrue result ↔ IsValue word.now }
{
    !word.is_empty() && is_name(word)
}

/// What the word is.
pub(crate) fn word_of(word: &str) -> Word<'_>
    ensures { IsWord result word.now }
{
    if is_name(word) {
        return Word::Name(word);
    }
    if let Some(option) = option_of(word) {
        return Word::Flag(option);
    }
    joined_of(word)
}

// An option with its value, in one word that begins with `-` and is no option alone.
fn joined_of(word: &str) -> Word<'_>
    requires name { ¬ IsName word.now }
    requires flag { (x : OptionName) → word.now ≢ dashed x }
    ensures { IsWord result word.now }
{
    let Some((front, value)) = word.split_once('=') else {
        return Word::Other;
    };
    match option_of(front) {
        Some(option) if is_value(value) => Word::Joined(option, value),
        _ => Word::Other,
    }
}
