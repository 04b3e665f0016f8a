// Laws on lines of chunk blocks, for proofs of code that stands on them. These functions do nothing when they run.
ghost use Rattle.jf_receive.specs.Laws.{ChunksComeLineByLine, RefusalsComeAtTheirLine, RefusalsStay, LongChunkLinesAreAlike, NoLinesComeToMemory};

/// Lines read one by one give what they give all together.
pub fn chunks_come_line_by_line()
    ensures { ChunksComeLineByLine }
{}

/// A refusal comes at the line that decides it, not earlier.
pub fn refusals_come_at_their_line()
    ensures { RefusalsComeAtTheirLine }
{}

/// A refusal stays, whatever lines follow.
pub fn refusals_stay()
    ensures { RefusalsStay }
{}

/// All lines of more than 8,500 bytes give the same.
pub fn long_lines_are_alike()
    ensures { LongChunkLinesAreAlike }
{}

/// The result of lines is no matter of memory.
pub fn no_lines_come_to_memory()
    ensures { NoLinesComeToMemory }
{}
