//! The tokens of a text.

/// What a token is.
#[derive(Clone, Copy, Debug, PartialEq, Eq)]
pub enum TokenKind {
    /// A letter or `_`, and letters, digits and `_` after it.
    Name,
    /// Digits.
    Number,
    Left,
    Right,
    LeftSquare,
    RightSquare,
    LeftBrace,
    RightBrace,
    Semi,
    Bar,
    Comma,
    Colon,
    Equal,
    Dollar,
    Tilde,
    /// `/\`.
    Both,
    /// `\/`.
    Either,
    /// Any other byte, or the `(` of a comment that is never closed.
    Other,
}

/// A token: its bytes are those of the text from `from` up to and without `to`. `line` is the line
/// of its first byte, from 1.
#[derive(Clone, Copy, Debug, PartialEq, Eq)]
pub struct Token {
    pub kind: TokenKind,
    pub from: u32,
    pub to: u32,
    pub line: u32,
}

/// What begins at a byte, and how many more bytes belong to it.
#[derive(Clone, Copy, PartialEq, Eq)]
pub struct Cut {
    pub kind: Option<TokenKind>,
    pub more: usize,
}
