// Where a line stands in its trace.

/// The version of a trace, which says how its values are spelled.
#[derive(Clone, Copy)]
pub(crate) enum Version {
    /// A value is a whole number.
    First,
    /// A value is spelled like a key. The first line is `bw 2`.
    Second,
}

/// A place in a trace: behind so many lines, and of a version.
#[derive(Clone, Copy)]
pub(crate) struct Place {
    pub lines: u64,
    pub version: Version,
}
