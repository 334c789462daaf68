// The listing of a whole trace: a line for each record, and one for how reading ends.
ghost use Rattle.std.specs.Prelude.{◌≡◌, IfOk, Some, string_bytes};
ghost use Rattle.listing.specs.Lines.{line, last, Lists, Listed};
ghost use Rattle.listing.specs.declared.lines.ListFault.TheVariants.{Memory};

use crate::words::Words;
use std::alloc::{AllocError, Global};
use std::fmt;
use thiserror::Error;
use trace::{Fault, Placed, Reader, Refusal};

// The longest trace, in bytes.
pub(crate) const LONGEST: usize = 4096;

// Why there is no listing.
#[derive(Debug, Drop, Error)]
pub(crate) enum ListFault {
    #[error("the trace is longer than 4,096 bytes")]
    TooLong,
    #[error("there is not enough memory")]
    Memory,
}

impl From<AllocError> for ListFault {
    ghost from_gives = { λ _ r. r ≡ Memory };

    fn from(_e: AllocError) -> ListFault {
        ListFault::Memory
    }
}

// The line of a record: its place, and the record in words.
#[derive(Clone, Copy)]
struct Line<'a>(Placed<'a>);

impl fmt::Display for Line<'_> {
    ghost output = { λ l. Some (line l.0) };

    fn fmt<W: fmt::Write>(&self, f: &mut fmt::Formatter<W>) -> fmt::Result {
        let at = self.0.at;
        let words = Words(self.0.record);
        write!(f, "{at}  {words}\n")
    }
}

// The last line: how many records a trace is, or where and why it is refused.
#[derive(Clone, Copy)]
struct LastLine(Result<usize, Refusal>);

impl fmt::Display for LastLine {
    ghost output = { λ l. Some (last l.0) };

    fn fmt<W: fmt::Write>(&self, f: &mut fmt::Formatter<W>) -> fmt::Result {
        match self.0 {
            Ok(1) => write!(f, "1 record\n"),
            Ok(count) => write!(f, "{count} records\n"),
            Err(Refusal { at, fault }) => {
                write!(f, "fault r {} {at}: {fault}\n", fault.number())
            }
        }
    }
}

// The lines of all records up to the trace's end or to the first refusal, and the last line.
#[tactic(auto, using(trace::proofs::Tiling::passed_none))]
fn all_lines(heap: Global, trace: &[u8]) -> Result<String, AllocError>
    ensures { IfOk result (λ s. Lists trace.now (string_bytes s)) }
{
    let mut text = String::new(heap);
    let mut count = 0;
    let mut reader = Reader::new(trace);
    let ending = loop {
        match reader.next_record() {
            Ok(Some(placed)) => {
                write!(text, "{}", Line(placed))?;
                count += 1;
            }
            Ok(None) => break Ok(count),
            Err(refusal) => break Err(refusal),
        }
    };
    write!(text, "{}", LastLine(ending))?;
    Ok(text)
}

// The listing of a trace, unless it is too long.
pub(crate) fn list(heap: Global, trace: &[u8]) -> Result<String, ListFault>
    ensures { Listed trace.now result }
{
    if trace.len() > LONGEST {
        return Err(ListFault::TooLong);
    }
    Ok(all_lines(heap, trace)?)
}
