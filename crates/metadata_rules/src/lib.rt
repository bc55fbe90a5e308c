// One interval of a mapping: a symbol's number, from a start date up to an end date that it no longer covers. A date is the
// number YYYYMMDD. What is defined over intervals, and its laws, stands in specs/.
#![tactic(auto)]

#[derive(Clone, Copy, Debug, PartialEq, Eq)]
pub struct Interval {
    pub start: u32,
    pub end: u32,
    pub symbol: u32,
}

// How an interval a lies to an interval b: a ends where b starts or before; neither does; both have the same dates; a starts
// where b ends or after.
#[derive(Clone, Copy, Debug, PartialEq, Eq)]
pub enum IntervalOrdering {
    Less,
    Overlap,
    Equal,
    Greater,
}
