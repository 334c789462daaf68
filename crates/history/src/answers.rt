// What a reply answers.
ghost use Rattle.std.specs.Prelude.{Some, codes};
ghost use Rattle.history.specs.Answers.{Tells};

use std::error::Error;
use std::fmt;

// What a reply answers: nothing, a number or a truth.
#[derive(Clone, Copy, Debug, PartialEq, Eq)]
pub enum Answer {
    Nothing,
    Number(u16),
    Truth(bool),
}

// A tag and a value that no answer has.
#[derive(Clone, Copy, Debug, PartialEq, Eq)]
pub struct UnknownAnswer;

impl fmt::Display for UnknownAnswer {
    ghost output = { λ _. Some (codes "no answer has this tag and this value") };

    fn fmt<W: fmt::Write>(&self, f: &mut fmt::Formatter<W>) -> fmt::Result {
        f.write_str("no answer has this tag and this value")
    }
}

impl Error for UnknownAnswer {}

impl TryFrom<(u8, u16)> for Answer {
    type Error = UnknownAnswer;

    ghost try_from_gives = { Tells };

    fn try_from(reply: (u8, u16)) -> Result<Answer, UnknownAnswer> {
        match reply {
            (0, 0) => Ok(Answer::Nothing),
            (1, number) => Ok(Answer::Number(number)),
            (2, 0) => Ok(Answer::Truth(false)),
            (2, 1) => Ok(Answer::Truth(true)),
            _ => Err(UnknownAnswer),
        }
    }
}
