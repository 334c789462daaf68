// Records taken from a trace in turn.
ghost use Rattle.std.specs.Prelude.{◌≡◌, ◌≤◌, length};
ghost use Rattle.trace.specs.Reading.{Reads, Counts};

use crate::fields::read_front;
use crate::reader::Reader;
use crate::records::{Placed, Refusal};

impl<'a> Reader<'a> {
    // A reader at the start of a trace.
    pub fn new(trace: &'a [u8]) -> Reader<'a>
        ensures trace { result.trace.now ≡ trace.now }
        ensures start { result.at ≡ 0 }
    {
        Reader { trace, at: 0 }
    }

    // The place of the next record.
    pub fn position(&self) -> usize
        ensures { result ≡ self.now.at }
    {
        self.at
    }

    // Takes the record at the reader's place and goes on behind it; `None` at the end of the trace. Neither the end nor a
    // refusal moves the reader.
    pub fn next_record(&mut self) -> Result<Option<Placed<'a>>, Refusal>
        ensures trace { self.new.trace ≡ self.old.trace }
        ensures reads { Reads self.old.trace.now self.old.at result self.new.at }
    {
        let (answer, next) = self.look();
        *self = Reader {
            trace: self.trace,
            at: next,
        };
        answer
    }

    // What a reader answers at its place, and where it goes on.
    fn look(&self) -> (Result<Option<Placed<'a>>, Refusal>, usize)
        ensures reads { Reads self.now.trace.now self.now.at result.0 result.1 }
        ensures within { result.1 ≤ length self.now.trace.now }
    {
        let rest = &self.trace[self.at..];
        if rest.is_empty() {
            return (Ok(None), self.at);
        }
        match read_front(rest) {
            Ok((record, behind)) => (
                Ok(Some(Placed {
                    at: self.at,
                    record,
                })),
                self.trace.len() - behind.len(),
            ),
            Err(fault) => (Err(Refusal { at: self.at, fault }), self.at),
        }
    }
}

// How many records a reader still gives, or the refusal that it comes to.
#[tactic(auto, using(crate::proofs::Tiling::passed_none))]
fn count_left(mut reader: Reader) -> Result<usize, Refusal>
    requires { reader.at ≡ 0 }
    ensures { Counts reader.entry.trace.now result }
{
    let mut count = 0;
    while let Some(_) = reader.next_record()? {
        count += 1;
    }
    Ok(count)
}

// How many records a trace is, or the first refusal.
pub fn count_records(trace: &[u8]) -> Result<usize, Refusal>
    ensures { Counts trace.now result }
{
    count_left(Reader::new(trace))
}
