// The records of a trace: their bytes, and a reader that takes them one by one.

#![tactic(auto)]

mod fields;
mod letters;
mod reader;
mod records;
#[cfg(test)]
mod tests;

pub use faults::Fault;
pub use letters::{CriterionChoice, Lettered, Level, ObjectChoice, UnknownLetter};
pub use reader::{Reader, count_records};
pub use records::{Placed, ReadFault, Record, Refusal};
