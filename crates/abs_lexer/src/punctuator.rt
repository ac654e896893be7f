//! The punctuators, by their bytes.
ghost use Rattle.std.specs.Prelude.{◌≡◌, [], ◌∷◌};
ghost use Rattle.abs_lexer.specs.Scans.{long_punctuator as long_punctuator_of, short_punctuator as short_punctuator_of};

use crate::Punctuator;

/// The punctuator of these two bytes.
#[tactic(auto, unfolding(crate::specs::Scans::long_punctuator))]
pub(crate) fn long_punctuator(first: u8, second: u8) -> Option<Punctuator>
    ensures { result ≡ long_punctuator_of (first ∷ second ∷ []) }
{
    match (first, second) {
        (b'=', b'=') => Some(Punctuator::Equal),
        (b'!', b'=') => Some(Punctuator::NotEqual),
        (b'<', b'=') => Some(Punctuator::LessEqual),
        (b'>', b'=') => Some(Punctuator::GreaterEqual),
        (b'|', b'|') => Some(Punctuator::Or),
        (b'&', b'&') => Some(Punctuator::And),
        (b'=', b'>') => Some(Punctuator::Arrow),
        _ => None,
    }
}

/// The punctuator of this one byte.
#[tactic(auto, unfolding(crate::specs::Scans::short_punctuator))]
pub(crate) fn short_punctuator(byte: u8) -> Option<Punctuator>
    ensures { result ≡ short_punctuator_of (byte ∷ []) }
{
    match byte {
        b'(' => Some(Punctuator::OpenParen),
        b')' => Some(Punctuator::CloseParen),
        b'{' => Some(Punctuator::OpenBrace),
        b'}' => Some(Punctuator::CloseBrace),
        b'<' => Some(Punctuator::Less),
        b'>' => Some(Punctuator::Greater),
        b',' => Some(Punctuator::Comma),
        b';' => Some(Punctuator::Semicolon),
        b'.' => Some(Punctuator::Dot),
        b'=' => Some(Punctuator::Assign),
        b'+' => Some(Punctuator::Plus),
        b'-' => Some(Punctuator::Minus),
        b'*' => Some(Punctuator::Star),
        b'/' => Some(Punctuator::Slash),
        b'%' => Some(Punctuator::Percent),
        b'!' => Some(Punctuator::Not),
        b'~' => Some(Punctuator::Tilde),
        b'?' => Some(Punctuator::Question),
        b'|' => Some(Punctuator::Bar),
        b'_' => Some(Punctuator::Underscore),
        _ => None,
    }
}
