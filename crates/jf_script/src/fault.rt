// A line is refused if it is too long or outside the grammar, or if memory runs out.

/// Why a line is no command.
#[derive(Clone, Copy, Debug, PartialEq, Eq)]
pub enum LineFault {
    /// The line has at most [`MAX_LINE`](jf_text::MAX_LINE) bytes and isn't in the grammar.
    Syntax,
    /// The line has more bytes.
    LineTooLong,
    /// Out of memory.
    Memory,
}
