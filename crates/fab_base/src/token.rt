//! Tokens of a source text.

use crate::seq::Seq;
use crate::text::Text;

/// A sign or a keyword.
#[derive(Clone, Copy, Debug, PartialEq, Eq)]
pub enum Mark {
    Arrow,
    BackArrow,
    EqualEqual,
    NotEqual,
    LessEqual,
    GreaterEqual,
    Less,
    Greater,
    Equal,
    Plus,
    Minus,
    Star,
    Slash,
    Bang,
    And,
    Bar,
    LeftParen,
    RightParen,
    LeftBrace,
    RightBrace,
    Comma,
    Semicolon,
    Colon,
    Dot,
    At,
    Access,
    ActsFor,
    After,
    Atomic,
    Authority,
    Begin,
    Cache,
    Class,
    Crash,
    CrashIn,
    Declassify,
    Deliver,
    Else,
    Endorse,
    Fail,
    Fails,
    Hostile,
    Idle,
    If,
    Int,
    Keep,
    Label,
    Method,
    New,
    Null,
    Post,
    Principal,
    Recover,
    Resume,
    Return,
    Returns,
    Root,
    Run,
    Schedule,
    Session,
    Store,
    To,
    While,
    Worker,
}

/// What a token is. `Least` is the number 2147483648, which stands only behind a minus sign. `Bytes`
/// stands in quotation marks, two digits of base 16 for each byte.
#[derive(Debug, Drop)]
pub enum Kind {
    Name(Text),
    Number(u32),
    Least,
    Bytes(Seq<u8>),
    Fixed(Mark),
}

/// A token, the place of its first byte and the place behind its last one.
#[derive(Debug, Drop)]
pub struct Token {
    pub kind: Kind,
    pub at: u32,
    pub end: u32,
}

/// What stands at the front of a text: so many bytes that are no token (a space or a comment), or
/// a token of so many bytes.
#[derive(Debug, Drop)]
pub enum Piece {
    Blank { len: usize },
    Spelled { kind: Kind, len: usize },
}
