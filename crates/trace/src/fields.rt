// One record from the front of some bytes: its mark, then its fields, then the rest.
ghost use Rattle.std.specs.Prelude.{◌≡◌, ◌/◌, ◌%◌, ◌<◌, ◌≤◌, ◌⊎◌, ◌++◌, length, take, drop, Some, None, MatchOption};
ghost use Rattle.trace.specs.Format.{mark, call, reply, object, criterion, level, note};
ghost use Rattle.trace.specs.Refusals.{Front, Chosen, Sets};

use crate::letters::{Lettered, Level};
use crate::records::{ReadFault, Record};

const CALL: [u8; 2] = *b"CA";

const REPLY: [u8; 2] = *b"RE";

const OBJECT: [u8; 2] = *b"OB";

const CRITERION: [u8; 2] = *b"RU";

const LEVEL: [u8; 2] = *b"LV";

const NOTE: [u8; 2] = *b"NO";

// The highest call kind that has a level of its own.
const LAST_KIND: u8 = 7;

// A record from the front, and the bytes behind it.
type Taken<'a> = Result<(Record<'a>, &'a [u8]), ReadFault>;

// A number of two bytes, high byte first.
fn word(high: u8, low: u8) -> u16
    ensures high { result / 256 ≡ high }
    ensures low { result % 256 ≡ low }
{
    u16::from_be_bytes([high, low])
}

#[tactic(auto, using(crate::proofs::Marks::behind_each))]
fn read_call<'a>(fields: &'a [u8]) -> Taken<'a>
    ensures { Front (mark call ++ fields.now) result }
{
    let [thread, kind, a1, a0, b1, b0, after1, after0, rest @ ..] = fields else {
        return Err(ReadFault::PastEnd);
    };
    let a = word(*a1, *a0);
    let b = word(*b1, *b0);
    let after = word(*after1, *after0);
    Ok((
        Record::Call {
            thread: *thread,
            kind: *kind,
            a,
            b,
            after,
        },
        rest,
    ))
}

#[tactic(auto, using(crate::proofs::Marks::behind_each))]
fn read_reply<'a>(fields: &'a [u8]) -> Taken<'a>
    ensures { Front (mark reply ++ fields.now) result }
{
    let [thread, tag, value1, value0, rest @ ..] = fields else {
        return Err(ReadFault::PastEnd);
    };
    let value = word(*value1, *value0);
    Ok((
        Record::Reply {
            thread: *thread,
            tag: *tag,
            value,
        },
        rest,
    ))
}

// The choice that the letter at the front names, and the bytes behind it.
fn read_choice<'a, C: Lettered>(fields: &'a [u8]) -> Result<(C, &'a [u8]), ReadFault>
    ensures { Chosen C.letter_of fields.now result }
{
    let [letter, rest @ ..] = fields else {
        return Err(ReadFault::PastEnd);
    };
    Ok((C::try_from(*letter)?, rest))
}

#[tactic(auto, using(crate::proofs::Marks::behind_each))]
fn read_object<'a>(fields: &'a [u8]) -> Taken<'a>
    ensures { Front (mark object ++ fields.now) result }
{
    let (choice, rest) = read_choice(fields)?;
    Ok((Record::Object(choice), rest))
}

#[tactic(auto, using(crate::proofs::Marks::behind_each))]
fn read_criterion<'a>(fields: &'a [u8]) -> Taken<'a>
    ensures { Front (mark criterion ++ fields.now) result }
{
    let (choice, rest) = read_choice(fields)?;
    Ok((Record::Criterion(choice), rest))
}

// The level that a letter sets for a kind of call.
fn level_for(kind: u8, letter: u8) -> Result<Level, ReadFault>
    ensures { Sets kind letter result }
{
    if kind > LAST_KIND {
        return Err(ReadFault::BadLetter);
    }
    Ok(Level::try_from(letter)?)
}

#[tactic(auto, using(crate::proofs::Marks::behind_each))]
fn read_level<'a>(fields: &'a [u8]) -> Taken<'a>
    ensures { Front (mark level ++ fields.now) result }
{
    let [kind, letter, rest @ ..] = fields else {
        return Err(ReadFault::PastEnd);
    };
    let level = level_for(*kind, *letter)?;
    Ok((Record::Level { kind: *kind, level }, rest))
}

// The first bytes, as many as a note's length says, and the rest.
fn split_text(size: u8, bytes: &[u8]) -> Option<(&[u8], &[u8])>
    ensures { MatchOption result (length bytes.now < size) (λ p. (size ≤ length bytes.now) × (p.0.now ≡ take size bytes.now) × (p.1.now ≡ drop size bytes.now)) }
{
    bytes.split_at_checked(size as usize)
}

#[tactic(auto, using(crate::proofs::Marks::behind_each))]
fn read_note<'a>(fields: &'a [u8]) -> Taken<'a>
    ensures { Front (mark note ++ fields.now) result }
{
    let [size, bytes @ ..] = fields else {
        return Err(ReadFault::PastEnd);
    };
    let (text, rest) = split_text(*size, bytes).ok_or(ReadFault::PastEnd)?;
    Ok((Record::Note(text), rest))
}

// The record at the front of some bytes.
pub(crate) fn read_front<'a>(bytes: &'a [u8]) -> Taken<'a>
    requires { 0 < length bytes.now }
    ensures { Front bytes.now result }
{
    let [mark0, mark1, fields @ ..] = bytes else {
        return Err(ReadFault::OneByteLeft);
    };
    match [*mark0, *mark1] {
        CALL => read_call(fields),
        REPLY => read_reply(fields),
        OBJECT => read_object(fields),
        CRITERION => read_criterion(fields),
        LEVEL => read_level(fields),
        NOTE => read_note(fields),
        _ => Err(ReadFault::UnknownMark),
    }
}
