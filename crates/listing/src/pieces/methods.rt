// Gathering a piece.
ghost use Rattle.std.specs.Prelude.{◌≡◌, ◌+◌, ◌<◌, ◌≤◌, false, [], ◌∷◌, ◌++◌, Decides};
ghost use Rattle.std.specs.Fmt.{digit_glyph};
ghost use Rattle.listing.specs.Pieces.{gathered, HasRoom};
ghost use Rattle.listing.specs.Words.{numbered, escaped};

use crate::pieces::{Piece, ROOM};
use crate::words::prints;
use std::str;

// The most bytes that one byte of a note becomes.
const WIDEST: usize = 4;

// A hexadecimal digit.
fn hex_digit(n: u8) -> u8
    requires { n < 16 }
    ensures value { result ≡ digit_glyph false n }
    ensures ascii { result < 128 }
{
    if n < 10 { b'0' + n } else { b'a' + (n - 10) }
}

impl Piece {
    // A piece without text.
    pub(crate) fn new() -> Piece
        ensures { gathered result ≡ [] }
    {
        Piece {
            bytes: [0; ROOM],
            len: 0,
        }
    }

    // A piece with a byte of a note.
    pub(crate) fn of(byte: u8) -> Piece
        ensures { gathered result ≡ escaped byte }
    {
        let mut piece = Piece::new();
        piece.push_escaped(byte);
        piece
    }

    // Whether the text of any byte still fits.
    pub(crate) fn has_room(&self) -> bool
        ensures { Decides result (HasRoom self.now) }
    {
        self.len <= ROOM - WIDEST
    }

    // The text.
    pub(crate) fn as_str(&self) -> &str
        ensures { result.now ≡ gathered self.now }
    {
        str::from_utf8(&self.bytes[..self.len]).unwrap_or_default()
    }

    // Takes a character.
    fn push(&mut self, byte: u8)
        requires ascii { byte < 128 }
        requires room { self.old.len < 64 }
        ensures text { gathered self.new ≡ gathered self.old ++ byte ∷ [] }
        ensures len { self.new.len ≡ self.old.len + 1 }
    {
        self.bytes[self.len] = byte;
        self.len += 1;
    }

    // Takes the number of a byte.
    fn push_number(&mut self, byte: u8)
        requires { HasRoom self.old }
        ensures { gathered self.new ≡ gathered self.old ++ numbered byte }
    {
        self.push(b'\\');
        self.push(b'x');
        self.push(hex_digit(byte / 16));
        self.push(hex_digit(byte % 16));
    }

    // Takes a byte of a note: itself where it prints, else its number.
    pub(crate) fn push_escaped(&mut self, byte: u8)
        requires { HasRoom self.old }
        ensures { gathered self.new ≡ gathered self.old ++ escaped byte }
    {
        if prints(byte) {
            self.push(byte);
        } else {
            self.push_number(byte);
        }
    }
}
