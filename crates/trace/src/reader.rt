// A reader over a trace.
ghost use Rattle.std.specs.Prelude.{◌≤◌, length};

mod steps;

pub use steps::count_records;

// A trace and the place of the next record in it.
#[derive(Debug, Drop)]
pub struct Reader<'a> {
    trace: &'a [u8],
    at: usize,
    ghost within: { at ≤ length trace.now },
}
