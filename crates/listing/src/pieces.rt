// The text of a note, in pieces.
ghost use Rattle.std.specs.Prelude.{◌≤◌, IsAscii};

mod methods;

// How many bytes a piece has room for.
pub(crate) const ROOM: usize = 64;

// Some of a note's text, in ASCII, gathered so that a writer is called once for many bytes of the note.
#[derive(Drop)]
pub(crate) struct Piece {
    bytes: [u8; ROOM],
    len: usize,
    ghost fits: { len ≤ 64 },
    ghost ascii: { IsAscii bytes },
}
