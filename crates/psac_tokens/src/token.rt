//! Kinds of tokens.

/// What a token is. Each reserved word is a kind of its own.
#[derive(Clone, Copy, Debug, PartialEq, Eq)]
pub enum Kind {
    Func,
    Let,
    New,
    Write,
    Read,
    As,
    If,
    Else,
    Par,
    Call,
    True,
    False,
    Nil,
    Rows,
    Cols,
    Cell,
    And,
    Or,
    Not,
    Neg,
    Abs,
    Min,
    Max,
    Len,
    Pair,
    Fst,
    Snd,
    Int,
    Name,
    Text,
    LeftBrace,
    RightBrace,
    LeftParen,
    RightParen,
    Semicolon,
    Comma,
    Assign,
    Equal,
    Unequal,
    Less,
    AtMost,
    Greater,
    AtLeast,
    Plus,
    Minus,
    Star,
    Slash,
    Percent,
    /// No token can be read here.
    Unreadable,
    End,
}

pub const RESERVED: [(&[u8], Kind); 27] = [
    (b"func", Kind::Func),
    (b"let", Kind::Let),
    (b"new", Kind::New),
    (b"write", Kind::Write),
    (b"read", Kind::Read),
    (b"as", Kind::As),
    (b"if", Kind::If),
    (b"else", Kind::Else),
    (b"par", Kind::Par),
    (b"call", Kind::Call),
    (b"true", Kind::True),
    (b"false", Kind::False),
    (b"nil", Kind::Nil),
    (b"rows", Kind::Rows),
    (b"cols", Kind::Cols),
    (b"cell", Kind::Cell),
    (b"and", Kind::And),
    (b"or", Kind::Or),
    (b"not", Kind::Not),
    (b"neg", Kind::Neg),
    (b"abs", Kind::Abs),
    (b"min", Kind::Min),
    (b"max", Kind::Max),
    (b"len", Kind::Len),
    (b"pair", Kind::Pair),
    (b"fst", Kind::Fst),
    (b"snd", Kind::Snd),
];

/// A token and its place.
#[derive(Clone, Copy, Debug, PartialEq, Eq)]
pub struct Token {
    pub kind: Kind,
    /// The value of an INT that is within its limit, else 0.
    pub number: i64,
    /// Which one a NAME is among the names, a TEXT among the texts, or a `read` among the reads; else 0.
    pub index: u16,
    pub line: u32,
    pub column: u32,
    /// The token is a NAME or an INT past its limit.
    pub over: bool,
}

/// What stands behind the last token.
pub const NOTHING: Token = Token {
    kind: Kind::Unreadable,
    number: 0,
    index: 0,
    line: 0,
    column: 0,
    over: false,
};
