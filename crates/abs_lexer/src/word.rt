//! Which words are keywords, and which are outside the profile of the language.
ghost use Rattle.std.specs.Prelude.{◌≡◌};
ghost use Rattle.abs_lexer.specs.Words.{declaration_keywords, expression_keywords, statement_keywords, keywords, keyword_among, is_foreign as is_foreign_of, word_kind as word_kind_of};

use crate::{Keyword, Lexeme};

/// The words outside the profile.
const FOREIGN_WORDS: [&[u8]; 16] = [
    b"assert",
    b"catch",
    b"delta",
    b"die",
    b"duration",
    b"exception",
    b"export",
    b"finally",
    b"foreach",
    b"original",
    b"productline",
    b"recover",
    b"switch",
    b"throw",
    b"trait",
    b"try",
];

/// The token kind of a word that begins with a lower-case letter.
#[tactic(auto, unfolding(crate::specs::Words::word_kind))]
pub(crate) fn word_kind(word: &[u8]) -> Lexeme
    ensures { result ≡ word_kind_of word.now }
{
    match keyword(word) {
        Some(keyword) => Lexeme::Keyword(keyword),
        None if is_foreign(word) => Lexeme::Foreign,
        None => Lexeme::LowerName,
    }
}

/// The keyword that is written like this word.
fn keyword(word: &[u8]) -> Option<Keyword>
    ensures { result ≡ keyword_among keywords word.now }
{
    declaration_keyword(word)
        .or_else(|| expression_keyword(word))
        .or_else(|| statement_keyword(word))
}

/// The keyword of declarations that is written like this word.
fn declaration_keyword(word: &[u8]) -> Option<Keyword>
    ensures { result ≡ keyword_among declaration_keywords word.now }
{
    match word {
        b"module" => Some(Keyword::Module),
        b"import" => Some(Keyword::Import),
        b"from" => Some(Keyword::From),
        b"data" => Some(Keyword::Data),
        b"def" => Some(Keyword::Def),
        b"interface" => Some(Keyword::Interface),
        b"extends" => Some(Keyword::Extends),
        b"class" => Some(Keyword::Class),
        b"implements" => Some(Keyword::Implements),
        _ => None,
    }
}

/// The keyword of expressions that is written like this word.
fn expression_keyword(word: &[u8]) -> Option<Keyword>
    ensures { result ≡ keyword_among expression_keywords word.now }
{
    match word {
        b"case" => Some(Keyword::Case),
        b"let" => Some(Keyword::Let),
        b"in" => Some(Keyword::In),
        b"if" => Some(Keyword::If),
        b"then" => Some(Keyword::Then),
        b"else" => Some(Keyword::Else),
        b"this" => Some(Keyword::This),
        b"null" => Some(Keyword::Null),
        b"destiny" => Some(Keyword::Destiny),
        _ => None,
    }
}

/// The keyword of statements that is written like this word.
fn statement_keyword(word: &[u8]) -> Option<Keyword>
    ensures { result ≡ keyword_among statement_keywords word.now }
{
    match word {
        b"skip" => Some(Keyword::Skip),
        b"while" => Some(Keyword::While),
        b"await" => Some(Keyword::Await),
        b"suspend" => Some(Keyword::Suspend),
        b"return" => Some(Keyword::Return),
        b"new" => Some(Keyword::New),
        b"cog" => Some(Keyword::Cog),
        b"get" => Some(Keyword::Get),
        b"println" => Some(Keyword::Println),
        _ => None,
    }
}

/// Whether a word is outside the profile.
fn is_foreign(word: &[u8]) -> bool
    ensures { result ≡ is_foreign_of word.now }
{
    FOREIGN_WORDS.iter().any(|other| word == *other)
}
