//! Tokens as the parser meets them.

ghost use Rattle.std.specs.Prelude.{◌≡◌};
ghost use Rattle.std.specs.Str.{IsUtf8};
ghost use Rattle.hog_grammar.specs.Terminal.{word, mark, meaning_of, CanBeRead};
ghost use Rattle.hog_terms.specs.View.{IsReadable};
ghost use Rattle.hog_terms.specs.View.{terminal_is};

use hog_grammar::TokenKind;

/// A token: what it is, and its bytes where they count.
#[derive(Clone, Copy, Drop)]
pub enum Term<'t> {
    Word(&'t [u8]),
    Number(&'t [u8]),
    Text(&'t [u8]),
    TemplateStart,
    Characters(&'t [u8]),
    HoleStart,
    HoleEnd,
    TemplateEnd,
    Let,
    Fun,
    Return,
    Throw,
    Try,
    Catch,
    If,
    Else,
    While,
    For,
    In,
    Not,
    And,
    Or,
    True,
    False,
    Null,
    Open,
    Close,
    OpenBracket,
    CloseBracket,
    OpenBrace,
    CloseBrace,
    Comma,
    Semi,
    Colon,
    Dot,
    NullishDot,
    Coalesce,
    Assign,
    Arrow,
    Plus,
    Minus,
    Star,
    Equal,
    NotEqual,
    Less,
    LessEqual,
    Greater,
    GreaterEqual,
    Nothing,
}

/// A word, reserved or not.
#[tactic(auto, unfolding(hog_grammar::specs::Terminal::word))]
fn reserved<'t>(bytes: &'t [u8]) -> Term<'t>
    requires { IsUtf8 bytes.now }
    ensures value { terminal_is result ≡ word bytes.now }
    ensures readable { IsReadable result }
{
    match bytes {
        s if b"let".as_slice() == s => Term::Let,
        s if b"fun".as_slice() == s => Term::Fun,
        s if b"return".as_slice() == s => Term::Return,
        s if b"throw".as_slice() == s => Term::Throw,
        s if b"try".as_slice() == s => Term::Try,
        s if b"catch".as_slice() == s => Term::Catch,
        s if b"if".as_slice() == s => Term::If,
        s if b"else".as_slice() == s => Term::Else,
        s if b"while".as_slice() == s => Term::While,
        s if b"for".as_slice() == s => Term::For,
        s if b"in".as_slice() == s => Term::In,
        s if b"not".as_slice() == s => Term::Not,
        s if b"and".as_slice() == s => Term::And,
        s if b"or".as_slice() == s => Term::Or,
        s if b"true".as_slice() == s => Term::True,
        s if b"false".as_slice() == s => Term::False,
        s if b"null".as_slice() == s => Term::Null,
        s => Term::Word(s),
    }
}

/// A mark of one byte or two.
#[tactic(auto, unfolding(hog_grammar::specs::Terminal::mark))]
fn sign<'t>(bytes: &[u8]) -> Term<'t>
    ensures value { terminal_is result ≡ mark bytes.now }
    ensures readable { IsReadable result }
{
    match bytes {
        s if b"(".as_slice() == s => Term::Open,
        s if b")".as_slice() == s => Term::Close,
        s if b"[".as_slice() == s => Term::OpenBracket,
        s if b"]".as_slice() == s => Term::CloseBracket,
        s if b"{".as_slice() == s => Term::OpenBrace,
        s if b"}".as_slice() == s => Term::CloseBrace,
        s if b",".as_slice() == s => Term::Comma,
        s if b";".as_slice() == s => Term::Semi,
        s if b":".as_slice() == s => Term::Colon,
        s if b".".as_slice() == s => Term::Dot,
        s if b"?.".as_slice() == s => Term::NullishDot,
        s if b"??".as_slice() == s => Term::Coalesce,
        s if b":=".as_slice() == s => Term::Assign,
        s if b"->".as_slice() == s => Term::Arrow,
        s if b"+".as_slice() == s => Term::Plus,
        s if b"-".as_slice() == s => Term::Minus,
        s if b"*".as_slice() == s => Term::Star,
        s if b"==".as_slice() == s => Term::Equal,
        s if b"!=".as_slice() == s => Term::NotEqual,
        s if b"<".as_slice() == s => Term::Less,
        s if b"<=".as_slice() == s => Term::LessEqual,
        s if b">".as_slice() == s => Term::Greater,
        s if b">=".as_slice() == s => Term::GreaterEqual,
        _ => Term::Nothing,
    }
}

/// What a token of that kind with these bytes is.
pub fn meaning<'t>(kind: TokenKind, bytes: &'t [u8]) -> Term<'t>
    requires { CanBeRead kind bytes.now }
    ensures value { terminal_is result ≡ meaning_of kind bytes.now }
    ensures readable { IsReadable result }
{
    match kind {
        TokenKind::Word => reserved(bytes),
        TokenKind::Number => Term::Number(bytes),
        TokenKind::Text => Term::Text(bytes),
        TokenKind::Mark => sign(bytes),
        TokenKind::TemplateStart => Term::TemplateStart,
        TokenKind::TemplateText => Term::Characters(bytes),
        TokenKind::HoleStart => Term::HoleStart,
        TokenKind::HoleEnd => Term::HoleEnd,
        TokenKind::TemplateEnd => Term::TemplateEnd,
    }
}
