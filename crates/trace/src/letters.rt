// The choices that a trace names by one ASCII letter each.
ghost use Rattle.std.specs.Prelude.{◌≡◌, ◌<◌, ℕ, Some, codes};
ghost use Rattle.trace.specs.Letters.{object, criterion, level, Named, Names, ByLetter};
ghost use Rattle.trace.specs.Names.{name_of_object, name_of_criterion, name_of_level};

use std::error::Error;
use std::fmt;

// A byte that is the letter of no choice.
#[derive(Clone, Copy, Debug, PartialEq, Eq)]
pub struct UnknownLetter;

impl fmt::Display for UnknownLetter {
    ghost output = { λ _. Some (codes "no choice has this letter") };

    fn fmt<W: fmt::Write>(&self, f: &mut fmt::Formatter<W>) -> fmt::Result {
        f.write_str("no choice has this letter")
    }
}

impl Error for UnknownLetter {}

// A choice with a letter of its own.
pub trait Lettered: Copy + TryFrom<u8, Error = UnknownLetter> {
    ghost letter_of: { Self → ℕ };

    // Its letter, in ASCII.
    fn letter(self) -> char
        ensures value { result ≡ letter_of self }
        ensures ascii { result < 128 };

    // A byte is taken for the choice that has it as its letter.
    ghost by_letter: { ByLetter letter_of Self.try_from_gives };

    // The choice that a letter names, if it names one.
    final fn from_letter(letter: u8) -> Option<Self>
        ensures { Named letter_of letter result }
    {
        Self::try_from(letter).ok()
    }
}

// The shared object whose calls the trace records.
#[derive(Clone, Copy, Debug, PartialEq, Eq)]
pub enum ObjectChoice {
    Map,
    Queue,
}

impl TryFrom<u8> for ObjectChoice {
    type Error = UnknownLetter;

    ghost try_from_gives = { Names object };

    fn try_from(letter: u8) -> Result<ObjectChoice, UnknownLetter> {
        match letter as char {
            'M' => Ok(ObjectChoice::Map),
            'Q' => Ok(ObjectChoice::Queue),
            _ => Err(UnknownLetter),
        }
    }
}

impl Lettered for ObjectChoice {
    ghost letter_of = { object };

    ghost by_letter = { λ b r h. h };

    fn letter(self) -> char {
        match self {
            ObjectChoice::Map => 'M',
            ObjectChoice::Queue => 'Q',
        }
    }
}

impl ObjectChoice {
    // Its name.
    fn name(self) -> &'static str
        ensures { result.now ≡ name_of_object self }
    {
        match self {
            ObjectChoice::Map => "map",
            ObjectChoice::Queue => "queue",
        }
    }
}

impl fmt::Display for ObjectChoice {
    ghost output = { λ x. Some (name_of_object x) };

    fn fmt<W: fmt::Write>(&self, f: &mut fmt::Formatter<W>) -> fmt::Result {
        f.write_str(self.name())
    }
}

// The consistency criterion to check against.
#[derive(Clone, Copy, Debug, PartialEq, Eq)]
pub enum CriterionChoice {
    Levels,
    ReadMyWrites,
    MonotonicReads,
    CausalConvergence,
}

impl TryFrom<u8> for CriterionChoice {
    type Error = UnknownLetter;

    ghost try_from_gives = { Names criterion };

    fn try_from(letter: u8) -> Result<CriterionChoice, UnknownLetter> {
        match letter as char {
            'l' => Ok(CriterionChoice::Levels),
            'r' => Ok(CriterionChoice::ReadMyWrites),
            'g' => Ok(CriterionChoice::MonotonicReads),
            'v' => Ok(CriterionChoice::CausalConvergence),
            _ => Err(UnknownLetter),
        }
    }
}

impl Lettered for CriterionChoice {
    ghost letter_of = { criterion };

    ghost by_letter = { λ b r h. h };

    fn letter(self) -> char {
        match self {
            CriterionChoice::Levels => 'l',
            CriterionChoice::ReadMyWrites => 'r',
            CriterionChoice::MonotonicReads => 'g',
            CriterionChoice::CausalConvergence => 'v',
        }
    }
}

impl CriterionChoice {
    // Its name.
    fn name(self) -> &'static str
        ensures { result.now ≡ name_of_criterion self }
    {
        match self {
            CriterionChoice::Levels => "levels",
            CriterionChoice::ReadMyWrites => "read my writes",
            CriterionChoice::MonotonicReads => "monotonic reads",
            CriterionChoice::CausalConvergence => "causal convergence",
        }
    }
}

impl fmt::Display for CriterionChoice {
    ghost output = { λ x. Some (name_of_criterion x) };

    fn fmt<W: fmt::Write>(&self, f: &mut fmt::Formatter<W>) -> fmt::Result {
        f.write_str(self.name())
    }
}

// How much of what came before a call of some kind must see, from nothing to everything.
#[derive(Clone, Copy, Debug, PartialEq, Eq)]
pub enum Level {
    Weak,
    Basic,
    Monotonic,
    Peer,
    Causal,
    Complete,
}

impl TryFrom<u8> for Level {
    type Error = UnknownLetter;

    ghost try_from_gives = { Names level };

    fn try_from(letter: u8) -> Result<Level, UnknownLetter> {
        match letter as char {
            'w' => Ok(Level::Weak),
            'b' => Ok(Level::Basic),
            'm' => Ok(Level::Monotonic),
            'p' => Ok(Level::Peer),
            'c' => Ok(Level::Causal),
            'a' => Ok(Level::Complete),
            _ => Err(UnknownLetter),
        }
    }
}

impl Lettered for Level {
    ghost letter_of = { level };

    ghost by_letter = { λ b r h. h };

    fn letter(self) -> char {
        match self {
            Level::Weak => 'w',
            Level::Basic => 'b',
            Level::Monotonic => 'm',
            Level::Peer => 'p',
            Level::Causal => 'c',
            Level::Complete => 'a',
        }
    }
}

impl Level {
    // Its name.
    fn name(self) -> &'static str
        ensures { result.now ≡ name_of_level self }
    {
        match self {
            Level::Weak => "weak",
            Level::Basic => "basic",
            Level::Monotonic => "monotonic",
            Level::Peer => "peer",
            Level::Causal => "causal",
            Level::Complete => "complete",
        }
    }
}

impl fmt::Display for Level {
    ghost output = { λ x. Some (name_of_level x) };

    fn fmt<W: fmt::Write>(&self, f: &mut fmt::Formatter<W>) -> fmt::Result {
        f.write_str(self.name())
    }
}
