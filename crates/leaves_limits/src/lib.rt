// The limits that the desk lives by (RULES, Numbers the desk lives by, and Merging records), each once; `specs/Limits.antt` has them for
// contracts.
#![tactic(auto)]

// The bytes of one name.
pub const NAME_SIZE: usize = 255;

// The names of a list, and their bytes in all.
pub const NAMES: usize = 4096;

pub const NAME_BYTES: usize = 65536;

// The intervals of a table over time, or the entries of a point-in-time table.
pub const ROOM: usize = 65536;

// A metadata's entries in each of its three lists of names, its mappings, its intervals.
pub const ENTRIES: usize = 4096;

pub const MAPPINGS: usize = 4096;

pub const INTERVALS: usize = 65536;

// The streams of a merge.
pub const STREAMS: usize = 256;

// The bytes of a bundle that is replayed.
pub const BUNDLE_BYTES: usize = 60000;

// The calls of one run.
pub const CALLS: usize = 4096;

// The nanoseconds of a day.
pub const DAY_NANOSECONDS: u64 = 86400000000000;
