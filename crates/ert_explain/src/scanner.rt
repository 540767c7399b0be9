//! The pieces of a JSON text, one after another, and where a text stops being JSON.
//!
//! No clause says which pieces these are: the value of a text is what `serde_json` reads. The scanner tells places
//! alone, where a value stands in the text, or what might have stood where none is.

use crate::expected::Expected;

/// How many arrays and objects may be open.
const MAX_OPEN: usize = 127;

/// What a piece is.
#[derive(Clone, Copy, PartialEq, Eq)]
pub(crate) enum PieceKind {
    /// The bracket or brace that opens an array or an object.
    Open,
    /// The one that closes it.
    Close,
    /// The name of a member, with its quotes.
    Name,
    /// A string, with its quotes.
    Text,
    /// A number.
    Number,
    /// `true`, `false` or `null`.
    Word,
}

/// A piece of a text: the bytes from `start` to before `end`.
#[derive(Clone, Copy)]
pub(crate) struct Piece {
    pub(crate) kind: PieceKind,
    pub(crate) start: usize,
    pub(crate) end: usize,
}

/// Goes over a text from a place at which a value begins.
#[derive(Drop)]
pub(crate) struct Scanner<'a> {
    bytes: &'a [u8],
    at: usize,
    /// Of each array and object that is open, from the outermost, whether it is an object.
    nests: [bool; MAX_OPEN],
    depth: usize,
    expected: Expected,
}

impl<'a> Scanner<'a> {
    /// Begins with the value that stands at this offset.
    pub(crate) fn new(bytes: &'a [u8], at: usize) -> Scanner<'a> {
        Scanner {
            bytes,
            at,
            nests: [false; MAX_OPEN],
            depth: 0,
            expected: Expected::Value,
        }
    }

    /// How many bytes were passed; after a failure, those before the fault.
    pub(crate) fn offset(&self) -> usize {
        self.at
    }

    /// How many arrays and objects are open.
    pub(crate) fn depth(&self) -> usize {
        self.depth
    }

    /// The next piece; None behind the value. Where no piece of JSON stands, what might.
    pub(crate) fn next(&mut self) -> Result<Option<Piece>, Expected> {
        self.skip_blanks();
        self.take_mark();
        self.skip_blanks();
        let start = self.at;
        let Some(byte) = self.peek() else {
            return self.at_end();
        };
        let kind = self.take_piece(byte)?;
        Ok(Some(Piece {
            kind,
            start,
            end: self.at,
        }))
    }

    fn at_end(&self) -> Result<Option<Piece>, Expected> {
        match self.expected {
            Expected::End => Ok(None),
            expected => Err(expected),
        }
    }

    /// Takes a comma or a colon, where one may stand.
    fn take_mark(&mut self) {
        match (self.expected, self.peek()) {
            (Expected::Colon, Some(b':')) | (Expected::CommaOrBracket, Some(b',')) => {
                self.pass_mark(Expected::Value)
            }
            (Expected::CommaOrBrace, Some(b',')) => self.pass_mark(Expected::Name),
            _ => {}
        }
    }

    fn pass_mark(&mut self, expected: Expected) {
        self.pass();
        self.expected = expected;
    }

    /// Takes a piece that begins with this byte.
    fn take_piece(&mut self, first: u8) -> Result<PieceKind, Expected> {
        match (self.expected, first) {
            (Expected::ValueOrBracket | Expected::CommaOrBracket, b']')
            | (Expected::NameOrBrace | Expected::CommaOrBrace, b'}') => Ok(self.close()),
            (Expected::NameOrBrace | Expected::Name, b'"') => {
                self.take_text()?;
                self.expected = Expected::Colon;
                Ok(PieceKind::Name)
            }
            (Expected::Value | Expected::ValueOrBracket, b'[') => {
                self.begin(false, Expected::ValueOrBracket)
            }
            (Expected::Value | Expected::ValueOrBracket, b'{') => {
                self.begin(true, Expected::NameOrBrace)
            }
            (Expected::Value | Expected::ValueOrBracket, _) => {
                let kind = self.take_scalar(first)?;
                self.expected = self.behind_value();
                Ok(kind)
            }
            (expected, _) => Err(expected),
        }
    }

    fn begin(&mut self, is_object: bool, expected: Expected) -> Result<PieceKind, Expected> {
        let Some(slot) = self.nests.get_mut(self.depth) else {
            return Err(Expected::LessNesting);
        };
        *slot = is_object;
        self.depth = self.depth.saturating_add(1);
        self.pass();
        self.expected = expected;
        Ok(PieceKind::Open)
    }

    fn close(&mut self) -> PieceKind {
        self.depth = self.depth.saturating_sub(1);
        self.pass();
        self.expected = self.behind_value();
        PieceKind::Close
    }

    /// What may stand behind a value.
    fn behind_value(&self) -> Expected {
        if self.depth == 0 {
            return Expected::End;
        }
        match self.nests.get(self.depth - 1) {
            Some(true) => Expected::CommaOrBrace,
            _ => Expected::CommaOrBracket,
        }
    }

    /// Takes a string, a number or a word that begins with this byte.
    fn take_scalar(&mut self, first: u8) -> Result<PieceKind, Expected> {
        match first {
            b'"' => {
                self.take_text()?;
                Ok(PieceKind::Text)
            }
            b'-' | b'0'..=b'9' => {
                self.take_number()?;
                Ok(PieceKind::Number)
            }
            b't' => self.take_word(b"true"),
            b'f' => self.take_word(b"false"),
            b'n' => self.take_word(b"null"),
            _ => Err(self.expected),
        }
    }

    /// Takes a string, from its first quote to its last.
    fn take_text(&mut self) -> Result<(), Expected> {
        self.pass();
        for _ in 0..self.bytes.len() {
            match self.peek() {
                Some(b'"') => {
                    self.pass();
                    return Ok(());
                }
                Some(b'\\') => self.take_escape()?,
                Some(0..=31) => return Err(Expected::Character),
                Some(_) => self.pass(),
                None => return Err(Expected::Quote),
            }
        }
        Err(Expected::Quote)
    }

    fn take_escape(&mut self) -> Result<(), Expected> {
        self.pass();
        match self.peek() {
            Some(b'"' | b'\\' | b'/' | b'b' | b'f' | b'n' | b'r' | b't') => {
                self.pass();
                Ok(())
            }
            Some(b'u') => {
                self.pass();
                self.take_four()
            }
            _ => Err(Expected::Escape),
        }
    }

    /// Takes four hexadecimal digits.
    fn take_four(&mut self) -> Result<(), Expected> {
        for _ in 0..4 {
            match self.peek() {
                Some(digit) if digit.is_ascii_hexdigit() => self.pass(),
                _ => return Err(Expected::HexDigit),
            }
        }
        Ok(())
    }

    /// Takes a number: a minus sign or none, an integer without leading zeros, and a fraction and an exponent
    /// where they are there.
    fn take_number(&mut self) -> Result<(), Expected> {
        if self.peek() == Some(b'-') {
            self.pass();
        }
        self.take_natural()?;
        self.take_fraction()?;
        self.take_exponent()
    }

    /// Takes an integer without a sign and without leading zeros.
    fn take_natural(&mut self) -> Result<(), Expected> {
        if self.peek() == Some(b'0') {
            self.pass();
            return Ok(());
        }
        self.take_digits()
    }

    /// Takes a fraction, where there is one.
    fn take_fraction(&mut self) -> Result<(), Expected> {
        if self.peek() != Some(b'.') {
            return Ok(());
        }
        self.pass();
        self.take_digits()
    }

    /// Takes an exponent, where there is one.
    fn take_exponent(&mut self) -> Result<(), Expected> {
        if !matches!(self.peek(), Some(b'e' | b'E')) {
            return Ok(());
        }
        self.pass();
        if matches!(self.peek(), Some(b'+' | b'-')) {
            self.pass();
        }
        self.take_digits()
    }

    /// Takes one or more digits.
    fn take_digits(&mut self) -> Result<(), Expected> {
        let start = self.at;
        for _ in 0..self.bytes.len() {
            match self.peek() {
                Some(digit) if digit.is_ascii_digit() => self.pass(),
                _ => break,
            }
        }
        if self.at == start {
            return Err(Expected::Digit);
        }
        Ok(())
    }

    fn take_word(&mut self, word: &[u8]) -> Result<PieceKind, Expected> {
        let end = self.at.saturating_add(word.len());
        match self.bytes.get(self.at..end) {
            Some(part) if part == word => {
                self.at = end;
                Ok(PieceKind::Word)
            }
            _ => Err(self.expected),
        }
    }

    fn skip_blanks(&mut self) {
        for _ in 0..self.bytes.len() {
            match self.peek() {
                Some(b' ' | b'\t' | b'\n' | b'\r') => self.pass(),
                _ => return,
            }
        }
    }

    fn peek(&self) -> Option<u8> {
        self.bytes.get(self.at).copied()
    }

    fn pass(&mut self) {
        self.at = self.at.saturating_add(1);
    }
}
