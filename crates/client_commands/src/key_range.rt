/// Where a command's keys stand among its words: the first, the last (from the end, where it is negative), and how far
/// one is from the next. All are 0 where it has none.
#[derive(Clone, Copy)]
pub struct KeyRange {
    pub first: i64,
    pub last: i64,
    pub step: i64,
}
