// The limits of a history.

// How many operations it holds.
pub const LIMIT: usize = 12;

// The last thread; they are numbered from 0.
pub const LAST_THREAD: u8 = 5;
