//! Where a value stands in a text.
//!
//! No clause says that it is there: the value of a text has no places. `own_text` compares what stands there with it.

use crate::own_text::is_known;
use crate::scanner::{Piece, PieceKind, Scanner};
use serde_json::Value;
use std::alloc::Global;

/// A step into an array or an object.
#[derive(Clone, Copy)]
enum PathStep<'a> {
    /// To the value of the last member of this name.
    Member(&'a str),
    /// To the item of this index.
    Item(usize),
    /// To the name of the first member that is no field of a scenario, or of a race.
    OtherName(bool),
}

/// Goes from the value of a text to a value in it, by steps. A step that leads nowhere stays.
#[derive(Clone, Copy)]
pub(crate) struct Locator<'a> {
    alloc: Global,
    bytes: &'a [u8],
    piece: Piece,
}

impl<'a> Locator<'a> {
    /// At the value of the text.
    pub(crate) fn new(alloc: Global, bytes: &'a [u8]) -> Locator<'a> {
        Locator {
            alloc,
            bytes,
            piece: first_piece(bytes),
        }
    }

    /// The first piece of the value.
    pub(crate) fn piece(self) -> Piece {
        self.piece
    }

    /// To the value of the last member of this name.
    pub(crate) fn member(self, name: &str) -> Locator<'a> {
        self.step(PathStep::Member(name))
    }

    /// To the item of this index.
    pub(crate) fn item(self, index: usize) -> Locator<'a> {
        self.step(PathStep::Item(index))
    }

    /// To the name of the first member that is no field of a scenario, or of a race.
    pub(crate) fn other_name(self, of_race: bool) -> Locator<'a> {
        self.step(PathStep::OtherName(of_race))
    }

    fn step(self, step: PathStep<'_>) -> Locator<'a> {
        match step_from(self.alloc, self.bytes, self.piece.start, step) {
            Some(piece) => Locator { piece, ..self },
            None => self,
        }
    }
}

/// The first piece of a text.
fn first_piece(bytes: &[u8]) -> Piece {
    match Scanner::new(bytes, 0).next() {
        Ok(Some(piece)) => piece,
        _ => Piece {
            kind: PieceKind::Open,
            start: 0,
            end: 0,
        },
    }
}

/// The first piece to which a step leads from the value that begins at an offset.
fn step_from(alloc: Global, bytes: &[u8], start: usize, step: PathStep<'_>) -> Option<Piece> {
    let mut scanner = Scanner::new(bytes, start);
    let mut seeker = Seeker {
        step,
        count: 0,
        is_named: false,
        found: None,
    };
    for _ in 0..=bytes.len() {
        let depth = scanner.depth();
        let Ok(Some(piece)) = scanner.next() else {
            break;
        };
        if depth == 1 && piece.kind != PieceKind::Close {
            seeker.look(alloc, bytes, piece);
        }
        if seeker.is_over() {
            break;
        }
    }
    seeker.found
}

/// Seeks the piece to which a step leads.
#[derive(Drop)]
struct Seeker<'a> {
    step: PathStep<'a>,
    /// How many items were passed.
    count: usize,
    /// Whether the last name was that of the step.
    is_named: bool,
    found: Option<Piece>,
}

impl Seeker<'_> {
    /// Looks at the next piece in the array or the object.
    fn look(&mut self, alloc: Global, bytes: &[u8], piece: Piece) {
        match (self.step, piece.kind) {
            (PathStep::Member(name), PieceKind::Name) => {
                self.is_named = match text_of(alloc, bytes, piece) {
                    Some(text) => text.as_str() == name,
                    None => false,
                };
            }
            (PathStep::Member(_), _) if self.is_named => self.found = Some(piece),
            (PathStep::Item(index), _) if self.count == index => self.found = Some(piece),
            (PathStep::OtherName(of_race), PieceKind::Name) => {
                let is_known = match text_of(alloc, bytes, piece) {
                    Some(name) => is_known(name.as_str(), of_race),
                    None => false,
                };
                if !is_known {
                    self.found = Some(piece);
                }
            }
            _ => {}
        }
        self.count = self.count.saturating_add(1);
    }

    /// Whether no later piece counts.
    fn is_over(&self) -> bool {
        self.found.is_some() && !matches!(self.step, PathStep::Member(_))
    }
}

/// The text of a string.
fn text_of(alloc: Global, bytes: &[u8], piece: Piece) -> Option<String> {
    match Value::from_slice(alloc, bytes.get(piece.start..piece.end)?) {
        Ok(Value::String(text)) => Some(text),
        _ => None,
    }
}
