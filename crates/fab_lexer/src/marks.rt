//! How marks are spelled.
ghost use Rattle.std.specs.Prelude.{◌≡◌, [], ◌∷◌, IsTrue, find};
ghost use Rattle.std.specs.Str.{bytes_eq};
ghost use Rattle.fab_base.specs.Tokens.{mark_text, keywords, keyword_of, sign_at};
ghost use Rattle.fab_lexer.specs.Firsts.{begun_by, is_word_from};

use fab_base::Mark;

/// The longest sign at the front of two bytes.
fn sign_of(first: u8, second: u8) -> Option<Mark>
    ensures { result ≡ sign_at (first ∷ second ∷ []) }
{
    match (first, second) {
        (b'-', b'>') => Some(Mark::Arrow),
        (b'<', b'-') => Some(Mark::BackArrow),
        (b'=', b'=') => Some(Mark::EqualEqual),
        (b'!', b'=') => Some(Mark::NotEqual),
        (b'<', b'=') => Some(Mark::LessEqual),
        (b'>', b'=') => Some(Mark::GreaterEqual),
        (b'<', _) => Some(Mark::Less),
        (b'>', _) => Some(Mark::Greater),
        (b'=', _) => Some(Mark::Equal),
        (b'+', _) => Some(Mark::Plus),
        (b'-', _) => Some(Mark::Minus),
        (b'*', _) => Some(Mark::Star),
        (b'/', _) => Some(Mark::Slash),
        (b'!', _) => Some(Mark::Bang),
        (b'&', _) => Some(Mark::And),
        (b'|', _) => Some(Mark::Bar),
        (b'(', _) => Some(Mark::LeftParen),
        (b')', _) => Some(Mark::RightParen),
        (b'{', _) => Some(Mark::LeftBrace),
        (b'}', _) => Some(Mark::RightBrace),
        (b',', _) => Some(Mark::Comma),
        (b';', _) => Some(Mark::Semicolon),
        (b':', _) => Some(Mark::Colon),
        (b'.', _) => Some(Mark::Dot),
        (b'@', _) => Some(Mark::At),
        _ => None,
    }
}

/// The keywords that begin with this letter.
fn keywords_from(first: u8) -> &'static [Mark]
    ensures { result.now ≡ begun_by first keywords }
{
    match first {
        b'a' => &[
            Mark::Access,
            Mark::ActsFor,
            Mark::After,
            Mark::Atomic,
            Mark::Authority,
        ],
        b'b' => &[Mark::Begin],
        b'c' => &[Mark::Cache, Mark::Class, Mark::Crash, Mark::CrashIn],
        b'd' => &[Mark::Declassify, Mark::Deliver],
        b'e' => &[Mark::Else, Mark::Endorse],
        b'f' => &[Mark::Fail, Mark::Fails],
        b'h' => &[Mark::Hostile],
        b'i' => &[Mark::Idle, Mark::If, Mark::Int],
        b'k' => &[Mark::Keep],
        b'l' => &[Mark::Label],
        b'm' => &[Mark::Method],
        b'n' => &[Mark::New, Mark::Null],
        b'p' => &[Mark::Post, Mark::Principal],
        b'r' => &[
            Mark::Recover,
            Mark::Resume,
            Mark::Return,
            Mark::Returns,
            Mark::Root,
            Mark::Run,
        ],
        b's' => &[Mark::Schedule, Mark::Session, Mark::Store],
        b't' => &[Mark::To],
        b'w' => &[Mark::While, Mark::Worker],
        _ => &[],
    }
}

/// How a mark is spelled.
pub(crate) fn text_of(mark: Mark) -> &'static str
    ensures { result.now ≡ mark_text mark }
{
    match mark {
        Mark::Arrow => "->",
        Mark::BackArrow => "<-",
        Mark::EqualEqual => "==",
        Mark::NotEqual => "!=",
        Mark::LessEqual => "<=",
        Mark::GreaterEqual => ">=",
        Mark::Less => "<",
        Mark::Greater => ">",
        Mark::Equal => "=",
        Mark::Plus => "+",
        Mark::Minus => "-",
        Mark::Star => "*",
        Mark::Slash => "/",
        Mark::Bang => "!",
        Mark::And => "&",
        Mark::Bar => "|",
        Mark::LeftParen => "(",
        Mark::RightParen => ")",
        Mark::LeftBrace => "{",
        Mark::RightBrace => "}",
        Mark::Comma => ",",
        Mark::Semicolon => ";",
        Mark::Colon => ":",
        Mark::Dot => ".",
        Mark::At => "@",
        _ => keyword_text(mark),
    }
}

/// How a keyword is spelled.
fn keyword_text(mark: Mark) -> &'static str
    ensures { IsTrue (is_word_from 97 mark) → result.now ≡ mark_text mark }
{
    match mark {
        Mark::Access => "access",
        Mark::ActsFor => "actsfor",
        Mark::After => "after",
        Mark::Atomic => "atomic",
        Mark::Authority => "authority",
        Mark::Begin => "begin",
        Mark::Cache => "cache",
        Mark::Class => "class",
        Mark::Crash => "crash",
        Mark::CrashIn => "crashin",
        Mark::Declassify => "declassify",
        Mark::Deliver => "deliver",
        Mark::Else => "else",
        Mark::Endorse => "endorse",
        Mark::Fail => "fail",
        Mark::Fails => "fails",
        Mark::Hostile => "hostile",
        Mark::Idle => "idle",
        Mark::If => "if",
        Mark::Int => "int",
        _ => later_keyword_text(mark),
    }
}

/// How a keyword from `keep` on is spelled.
fn later_keyword_text(mark: Mark) -> &'static str
    ensures { IsTrue (is_word_from 107 mark) → result.now ≡ mark_text mark }
{
    match mark {
        Mark::Keep => "keep",
        Mark::Label => "label",
        Mark::Method => "method",
        Mark::New => "new",
        Mark::Null => "null",
        Mark::Post => "post",
        Mark::Principal => "principal",
        Mark::Recover => "recover",
        Mark::Resume => "resume",
        Mark::Return => "return",
        Mark::Returns => "returns",
        Mark::Root => "root",
        Mark::Run => "run",
        Mark::Schedule => "schedule",
        Mark::Session => "session",
        Mark::Store => "store",
        Mark::To => "to",
        Mark::While => "while",
        Mark::Worker => "worker",
        _ => "",
    }
}

/// The first of these marks that is spelled so.
fn spelled_so(marks: &[Mark], word: &str) -> Option<Mark>
    ensures { result ≡ find (λ x. bytes_eq (mark_text x) word.now) marks.now }
{
    marks.iter().copied().find(|mark| text_of(*mark) == word)
}

/// The keyword that is spelled so.
pub(crate) fn keyword(word: &str) -> Option<Mark>
    ensures { result ≡ keyword_of word.now }
{
    match word.as_bytes() {
        [] => None,
        [first, ..] => spelled_so(keywords_from(*first), word),
    }
}

/// The longest sign at the front. At the last byte a zero, which no sign has, stands for the second.
pub(crate) fn sign_before(bytes: &[u8]) -> Option<Mark>
    ensures { result ≡ sign_at bytes.now }
{
    match bytes {
        [] => None,
        [first] => sign_of(*first, 0),
        [first, second, ..] => sign_of(*first, *second),
    }
}
