// The results of lines of landing blocks.
use jf_lead::{LandingBlock, LandingFault, LandingReader};
use std::alloc::Global;

/// The result of lines: how many blocks and changes they have, the last version, and the number of the first line of the
/// last block; and the line that is refused, or 0.
#[derive(Clone, Copy, Debug, PartialEq, Eq)]
pub(crate) struct Came {
    pub(crate) blocks: u64,
    pub(crate) changes: u64,
    pub(crate) version: u64,
    pub(crate) first: u64,
    pub(crate) refused: u64,
}

/// The result of no lines.
pub(crate) const NOTHING: Came = Came {
    blocks: 0,
    changes: 0,
    version: 0,
    first: 0,
    refused: 0,
};

impl Came {
    fn with(self, first: u64, block: &LandingBlock) -> Came {
        Came {
            blocks: self.blocks.saturating_add(1),
            changes: self.changes.saturating_add(block.batch.len() as u64),
            version: block.version,
            first,
            refused: 0,
        }
    }

    fn refused_by(self, why: LandingFault) -> Came {
        let refused = match why {
            LandingFault::Line(at) => at,
            LandingFault::Memory => u64::MAX,
        };
        Came { refused, ..self }
    }
}

/// The result of lines after others: nothing more, if one of those was refused.
fn outcome_of_lines(reader: &mut LandingReader, before: Came, lines: &[&str]) -> Came {
    let mut came = before;
    for line in lines {
        came = match reader.line(line.as_bytes()) {
            Ok(Some((first, block))) => came.with(first, &block),
            Ok(None) => came,
            Err(why) => return came.refused_by(why),
        };
    }
    came
}

/// The result of lines that follow others.
pub(crate) fn came_to(alloc: Global, front: &[&str], lines: &[&str]) -> Came {
    let mut reader = LandingReader::new(alloc);
    let came = outcome_of_lines(&mut reader, NOTHING, front);
    let came = outcome_of_lines(&mut reader, came, lines);
    match reader.end() {
        Ok(()) => came,
        Err(why) => came.refused_by(why),
    }
}
