// Internal nodes have two formats: the second one adds to each child the number of entries below it.

/// How internal nodes are written (docs/FORMATS.md, "Names and nodes in bytes").
#[derive(Clone, Copy, Debug, PartialEq, Eq)]
pub enum Format {
    /// Without counts of entries: tag 2.
    One,
    /// With a count of entries for each child: tag 3.
    Two,
}
