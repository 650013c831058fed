// What procedures are sorted by.

/// What procedures are sorted by: their totals, or their own counts.
#[derive(Clone, Copy, Debug, PartialEq, Eq)]
pub enum Sort {
    Total,
    Own,
}
