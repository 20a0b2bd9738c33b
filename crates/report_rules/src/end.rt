/// An end of a range.
#[derive(Clone, Copy, Debug, PartialEq, Eq)]
pub enum End {
    /// A value, in millionths.
    Value(i64),
    /// The limit of the values.
    Limit,
    /// Unknown, since a search stopped.
    Unknown,
}
