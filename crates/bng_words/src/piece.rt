ghost use Rattle.std.specs.Prelude.{◌∷◌, ℕ, List, IfSome, IfNone};
ghost use Rattle.bng_words.specs.declared.option.OptionName.{OptionName};
ghost use Rattle.bng_words.specs.Words.{Text, texts, dashed};
ghost use Rattle.bng_words.specs.Line.{LinePiece, Begins};
ghost use Rattle.bng_words.specs.View.{piece_of};

use crate::option::OptionName;
use crate::word::{Word, is_value, word_of};

/// A word that is no option, or an option with its value.
#[derive(Clone, Copy)]
pub(crate) enum Piece<'a> {
    Name(&'a str),
    Option(OptionName, &'a str),
}

/// The piece with which the words begin, and the words after it.
pub(crate) fn front(words: &[String]) -> Option<(Piece<'_>, &[String])>
    ensures found { IfSome result (λ f. Begins (piece_of f.0) (texts words.now) (texts f.1.now)) }
    ensures none { IfNone result ((p : LinePiece) (rest : List Text) → ¬ Begins p (texts words.now) rest) }
{
    let Some((word, after)) = words.split_first() else {
        return None;
    };
    match word_of(word.as_str()) {
        Word::Name(name) => Some((Piece::Name(name), after)),
        Word::Joined(x, value) => Some((Piece::Option(x, value), after)),
        Word::Flag(x) => valued(x, after),
        Word::Other => None,
    }
}

// The option with the next word as its value, and the words after that.
fn valued(x: OptionName, after: &[String]) -> Option<(Piece<'_>, &[String])>
    ensures found { IfSome result (λ f. Begins (piece_of f.0) (dashed x ∷ texts after.now) (texts f.1.now)) }
    ensures none { IfNone result ((p : LinePiece) (rest : List Text) → ¬ Begins p (dashed x ∷ texts after.now) rest) }
{
    let Some((word, next)) = after.split_first() else {
        return None;
    };
    let value = word.as_str();
    if is_value(value) {
        Some((Piece::Option(x, value), next))
    } else {
        None
    }
}
