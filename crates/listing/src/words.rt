// Records in words.
ghost use Rattle.std.specs.Prelude.{◌≡◌, Some};
ghost use Rattle.listing.specs.Words.{answer, names, printing, quoted, words};

use crate::pieces::Piece;
use history::{Answer, OpSet};
use std::fmt;
use trace::{Lettered, Record};

// What a reply answers, by its tag and its value; these stand themselves where they do not go together.
#[derive(Clone, Copy)]
struct Told(u8, u16);

impl fmt::Display for Told {
    ghost output = { λ t. Some (answer t.0 t.1) };

    fn fmt<W: fmt::Write>(&self, f: &mut fmt::Formatter<W>) -> fmt::Result {
        let Told(tag, value) = *self;
        match Answer::try_from((tag, value)) {
            Ok(Answer::Nothing) => write!(f, "nothing"),
            Ok(Answer::Number(number)) => write!(f, "number {number}"),
            Ok(Answer::Truth(false)) => write!(f, "false"),
            Ok(Answer::Truth(true)) => write!(f, "true"),
            Err(_) => write!(f, "tag {tag} value {value}"),
        }
    }
}

// The operations that an after field names, each behind a space.
#[derive(Clone, Copy)]
struct After(OpSet);

impl fmt::Display for After {
    ghost output = { λ a. Some (names a.0.bits) };

    #[tactic(auto, using(crate::proofs::Names::names_none))]
    fn fmt<W: fmt::Write>(&self, f: &mut fmt::Formatter<W>) -> fmt::Result {
        if self.0.is_empty() {
            return write!(f, " none");
        }
        for i in self.0.iter() {
            write!(f, " {i}")?;
        }
        Ok(())
    }
}

// Whether a byte of a note stands for itself in a listing.
pub(crate) fn prints(byte: u8) -> bool
    ensures { result ≡ printing byte }
{
    byte > 31 && byte < 127 && byte != b'"' && byte != b'\\'
}

// A note's text between quotation marks.
#[derive(Clone, Copy)]
struct Quoted<'a>(&'a [u8]);

impl fmt::Display for Quoted<'_> {
    ghost output = { λ q. Some (quoted q.0.now) };

    fn fmt<W: fmt::Write>(&self, f: &mut fmt::Formatter<W>) -> fmt::Result {
        f.write_str("\"")?;
        let mut piece = Piece::new();
        for byte in self.0 {
            if piece.has_room() {
                piece.push_escaped(*byte);
            } else {
                f.write_str(piece.as_str())?;
                piece = Piece::of(*byte);
            }
        }
        f.write_str(piece.as_str())?;
        f.write_str("\"")
    }
}

// A record in words.
#[derive(Clone, Copy)]
pub(crate) struct Words<'a>(pub(crate) Record<'a>);

impl fmt::Display for Words<'_> {
    ghost output = { λ w. Some (words w.0) };

    #[tactic(auto, using(crate::proofs::Names::naming))]
    fn fmt<W: fmt::Write>(&self, f: &mut fmt::Formatter<W>) -> fmt::Result {
        match self.0 {
            Record::Call {
                thread,
                kind,
                a,
                b,
                after,
            } => {
                write!(
                    f,
                    "call: thread {thread}, kind {kind}, a {a}, b {b}, after{}",
                    After(OpSet::from_bits(after))
                )
            }
            Record::Reply { thread, tag, value } => {
                write!(f, "reply: thread {thread}, {}", Told(tag, value))
            }
            Record::Object(choice) => { write!(f, "object: letter {}, {choice}", choice.letter()) }
            Record::Criterion(choice) => {
                write!(f, "criterion: letter {}, {choice}", choice.letter())
            }
            Record::Level { kind, level } => {
                write!(f, "level: kind {kind} (letter {}, {level})", level.letter())
            }
            Record::Note(text) => write!(f, "note: {}", Quoted(text)),
        }
    }
}
