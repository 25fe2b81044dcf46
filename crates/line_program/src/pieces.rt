//! The lines of an input.
ghost use Rattle.std.specs.Prelude.{◌≡◌, ◌≤◌, ◌<◌, length, IsTrue};
ghost use Rattle.line_program.specs.Lines.{fits};
ghost use Rattle.line_program.specs.Pieces.{piece_len, text_of};

use crate::limits::{MAX_LINE_BYTES, MAX_LINES};

/// How long the first line is, with its end.
pub fn first_len(rest: &[u8]) -> usize
    ensures len { result ≡ piece_len rest.now }
    ensures within { result ≤ length rest.now }
    ensures some { 0 < length rest.now → 0 < result }
{
    for (i, b) in rest.iter().enumerate() {
        if *b == 10 {
            return i + 1;
        }
    }
    rest.len()
}

/// A line without its end.
pub fn text(piece: &[u8]) -> &[u8]
    ensures { result.now ≡ text_of piece.now }
{
    match piece {
        [front @ .., 10] => front,
        _ => piece,
    }
}

/// Whether a line of this number, with its end, is within the limits, with so much room left in the input.
pub fn is_within(number: u64, room: usize, piece: &[u8]) -> bool
    ensures exact { result ≡ fits number room piece.now }
    ensures number { IsTrue result → number ≤ MAX_LINES }
    ensures room { IsTrue result → length piece.now ≤ room }
{
    number <= MAX_LINES && piece.len() <= room && text(piece).len() <= MAX_LINE_BYTES
}
