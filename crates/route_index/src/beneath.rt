//! What stands beneath a path: the patterns that begin with it, in the order of their texts.

ghost use Rattle.std.specs.Prelude.{◌≡◌, ◌==◌, [], ◌∷◌, ◌++◌, map, position, IfOk, MatchOption};
ghost use Rattle.route_index.specs.declared.beneath.Piece.TheVariants.{Token};
ghost use Rattle.route_index.specs.Beneath.{IsPiece, ArePieces, Covers, EndsPiece, IsBeneath, IsFirstFrom, HasNoneFrom};

use crate::ids::Ids;
use crate::pattern::Pattern;
use js_base::NoMemory;
use std::alloc::Global;

/// Which piece of the texts beneath a path is listed.
#[derive(Clone, Copy)]
pub(crate) enum Piece {
    /// The first token.
    Token,
    /// The whole text.
    Text,
}

impl Piece {
    /// The piece of a text, and a byte: the texts from this one up to the piece and that byte have the same piece.
    fn cut(self, text: &[u8]) -> (&[u8], u8)
        ensures piece { IsPiece self text.now result.0.now }
        ensures ends { EndsPiece self text.now result.0.now (result.0.now ++ result.1 ∷ []) }
    {
        match self {
            Piece::Token => cut_token(text),
            Piece::Text => (text, 0),
        }
    }
}

/// The first token of a text, and the byte that ends the texts with this token from this one on.
fn cut_token(text: &[u8]) -> (&[u8], u8)
    ensures piece { IsPiece Token text.now result.0.now }
    ensures ends { EndsPiece Token text.now result.0.now (result.0.now ++ result.1 ∷ []) }
{
    match first_dot(text) {
        Some(at) => (&text[..at], b'.' + 1),
        None => (text, 0),
    }
}

/// The place of the first dot.
pub(crate) fn first_dot(text: &[u8]) -> Option<usize>
    ensures value { result ≡ position (λ byte. byte == 46) text.now }
{
    text.iter().position(|byte| *byte == b'.')
}

/// The pieces of the patterns that begin with the path, each without the path. The patterns between two pieces cost nothing.
pub(crate) fn pieces_beneath<'a>(
    ids: &'a Ids,
    alloc: Global,
    path: &Pattern,
    piece: Piece,
) -> Result<Vec<&'a [u8]>, NoMemory>
    ensures covers { IfOk result (λ pieces. Covers piece ids.now path.now (map (λ part. part.now) pieces.items)) }
    ensures pieces { IfOk result (λ pieces. ArePieces piece (map (λ part. part.now) pieces.items)) }
{
    let mut pieces = Vec::new(alloc);
    let mut from = Pattern::of(alloc, path.as_slice())?;
    while let Some(text) = first_beneath(ids, path, &from) {
        let (part, past) = piece.cut(text);
        pieces.push(part)?;
        from.cut(path.len());
        from.put(part)?;
        from.put(&[past])?;
    }
    Ok(pieces)
}

/// What follows the path in the first pattern that is not before `from` and begins with the path.
fn first_beneath<'a>(ids: &'a Ids, path: &Pattern, from: &Pattern) -> Option<&'a [u8]>
    requires beneath { IsBeneath path.now from.now }
    ensures value { MatchOption result (HasNoneFrom ids.now path.now from.now) (λ text. IsFirstFrom ids.now path.now from.now text.now) }
{
    match ids.range(from..).next() {
        Some((pattern, _)) => pattern.as_slice().strip_prefix(path.as_slice()),
        None => None,
    }
}
