// Lists a trace from standard input in readable lines, up to its end or to the first record that is refused.
#![tactic(auto)]

use lines::{LONGEST, list};
use std::io::Read;
use std::process::ExitCode;
use trace::count_records;

mod lines;
mod pieces;
#[cfg(test)]
mod tests;
mod words;

// Prints the listing of standard input; whether all of it was read as records.
fn run(rt: &HostRuntime) -> anyhow::Result<bool> {
    let heap = rt.alloc();
    let mut trace = Vec::new(heap);
    rt.stdin().take(LONGEST as u64 + 1).read_to_end(&mut trace)?;
    rt.print(list(heap, trace.as_slice())?)?;
    Ok(count_records(trace.as_slice()).is_ok())
}

fn main(rt: HostRuntime) -> ExitCode {
    match run(&rt) {
        Ok(true) => ExitCode::SUCCESS,
        Ok(false) => ExitCode::FAILURE,
        Err(error) => {
            let _ = eprintln!(rt; "listing: {error}");
            ExitCode::FAILURE
        }
    }
}
