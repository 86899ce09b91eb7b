//! Tokens, and where they stand.

/// The bytes from `start` on and before `end`.
#[derive(Debug, Clone, Copy, PartialEq, Eq)]
pub struct Span {
    pub start: usize,
    pub end: usize,
}

/// The words that mean something of their own where the grammar asks for them. Elsewhere they are
/// names as any other, and so is every name in backquotes.
#[derive(Debug, Clone, Copy, PartialEq, Eq)]
pub enum Word {
    Bus,
    Air,
    Trace,
    Preprocessed,
    Lookups,
    Height,
    Columns,
    Public,
    Let,
    Assert,
    Bool,
    Query,
    Provide,
    Send,
    Receive,
    Local,
    Times,
    At,
    Most,
    Together,
    Exclusive,
    When,
    Next,
    Other,
}

/// What a token is.
#[derive(Debug, Clone, Copy, PartialEq, Eq)]
pub enum Kind {
    /// A name. That of `Other` means nothing of its own.
    Name(Word),
    /// A decimal number below 2^64.
    Number(u64),
    /// A text in double quotes.
    Quoted,
    /// One of `( ) { } , + - * ^ =`, as its byte.
    Sign(u8),
    /// The end of a line, outside parentheses.
    Line,
    /// The end of the text.
    End,
}

/// A token and its bytes in the text. Of a name in backquotes and of a quoted text these are the
/// bytes between the quotes.
pub type Token = (Kind, Span);
