// Packed text: its length and that of its pieces, four bytes each, then the pieces. A piece is a byte n below 128 and n + 1 bytes of the text, or
// a byte n from 128 on, for n - 127 blanks. A byte of the text is known by its piece's place and its number in the piece, from 0.
use crate::cursor::NOWHERE;
use crate::{cursor, lent};

// The number of a piece's last byte.
fn last(s: &[u8], piece: usize) -> usize {
    usize::from(cursor::byte(s, piece) % 128)
}

// Byte i of a piece.
fn text_byte(s: &[u8], piece: usize, i: usize) -> u8 {
    if cursor::byte(s, piece) < 128 {
        return cursor::byte(s, cursor::step(s, cursor::step(s, piece, 1), i));
    }
    b' '
}

// The place past a piece.
fn piece_end(s: &[u8], piece: usize) -> usize {
    if cursor::byte(s, piece) < 128 {
        return cursor::step(s, cursor::step(s, piece, 2), last(s, piece));
    }
    cursor::step(s, piece, 1)
}

// The piece of the byte behind byte i.
fn next_piece(s: &[u8], piece: usize, i: usize) -> usize {
    if i < last(s, piece) {
        return piece;
    }
    piece_end(s, piece)
}

// The number of the byte behind byte i.
fn next_byte(s: &[u8], piece: usize, i: usize) -> usize {
    if i < last(s, piece) {
        return i + 1;
    }
    0
}

// The place past the pieces where the next byte is a piece's first; else nowhere.
fn pieces_end(piece: usize, i: usize) -> usize {
    if i == 0 {
        return piece;
    }
    NOWHERE
}

// Fills bytes with the text of pieces; gives the place past these.
pub fn unpack(s: &[u8], at: usize, out: &mut [u8]) -> usize {
    // The next byte is byte i of the piece.
    let mut piece = at;
    let mut i = 0;
    for byte in out {
        *byte = text_byte(s, piece, i);
        let next = next_byte(s, piece, i);
        piece = next_piece(s, piece, i);
        i = next;
    }
    pieces_end(piece, i)
}

// The place past pieces whose text bytes are; nowhere for other bytes.
fn text_end(s: &[u8], at: usize, out: &[u8]) -> usize {
    // The next byte is byte i of the piece.
    let mut piece = at;
    let mut i = 0;
    for byte in out {
        if *byte != text_byte(s, piece, i) {
            return NOWHERE;
        }
        let next = next_byte(s, piece, i);
        piece = next_piece(s, piece, i);
        i = next;
    }
    pieces_end(piece, i)
}

// The place past packed text.
pub fn end(s: &[u8], at: usize) -> usize {
    cursor::bytes_end(s, cursor::step(s, at, 4))
}

// Whether lent bytes are as a room tells that stands at a record's end: length, fill, the bytes written as packed text.
pub fn room_is(s: &[u8], at: usize, written: usize, out: &[u8]) -> bool {
    let fill = cursor::byte(s, cursor::step(s, at, 4));
    let text = cursor::step(s, at, 5);
    let pieces = cursor::step(s, at, 13);
    if cursor::short(s, text) != written {
        return false;
    }
    // Behind the text stands the fill alone.
    if written <= out.len() {
        return (text_end(s, pieces, &out[0..written]) == s.len())
            & lent::front_is(s, at, 0, fill, &out[written..]);
    }
    false
}
