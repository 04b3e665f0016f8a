// How a run over a script ends.

/// How a run over a script ended.
#[derive(Clone, Copy, Debug, PartialEq, Eq)]
pub enum End {
    /// The input was read to its end, and all replies were written.
    Done,
    /// The source failed.
    ReadFault,
    /// The sink failed.
    WriteFault,
    /// The disk failed.
    DiskFault,
    /// The disk failed in an earlier call on the same store.
    Broken,
    /// Out of memory.
    Memory,
}
