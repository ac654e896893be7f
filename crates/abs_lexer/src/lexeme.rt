//! Token kinds: keywords, punctuators, names and literals.

/// The kind of a token.
#[derive(Clone, Copy, Debug, PartialEq, Eq)]
pub enum Lexeme {
    /// A name that begins with a lower-case letter.
    LowerName,
    /// A name that begins with an upper-case letter.
    UpperName,
    /// A number in decimal digits.
    Number,
    /// A string with its quotes.
    Text,
    /// A keyword.
    Keyword(Keyword),
    /// A word outside the profile of the language.
    Foreign,
    /// A punctuator.
    Punctuator(Punctuator),
}

/// A keyword: a word that the language reserves.
#[derive(Clone, Copy, Debug, PartialEq, Eq)]
pub enum Keyword {
    Module,
    Import,
    From,
    Data,
    Def,
    Case,
    Let,
    In,
    If,
    Then,
    Else,
    Interface,
    Extends,
    Class,
    Implements,
    Skip,
    While,
    Await,
    Suspend,
    Return,
    New,
    Cog,
    Get,
    This,
    Null,
    Destiny,
    Println,
}

/// A punctuator: a punctuation mark or an operator.
#[derive(Clone, Copy, Debug, PartialEq, Eq)]
pub enum Punctuator {
    /// `(`
    OpenParen,
    /// `)`
    CloseParen,
    /// `{`
    OpenBrace,
    /// `}`
    CloseBrace,
    /// `<`
    Less,
    /// `>`
    Greater,
    /// `,`
    Comma,
    /// `;`
    Semicolon,
    /// `.`
    Dot,
    /// `=`
    Assign,
    /// `==`
    Equal,
    /// `!=`
    NotEqual,
    /// `<=`
    LessEqual,
    /// `>=`
    GreaterEqual,
    /// `+`
    Plus,
    /// `-`
    Minus,
    /// `*`
    Star,
    /// `/`
    Slash,
    /// `%`
    Percent,
    /// `!`
    Not,
    /// `~`
    Tilde,
    /// `?`
    Question,
    /// `|`
    Bar,
    /// `||`
    Or,
    /// `&&`
    And,
    /// `=>`
    Arrow,
    /// `_`
    Underscore,
}
