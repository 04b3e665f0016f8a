// Versions that only contracts see.
ghost use Rattle.std.specs.Prelude.{◌≡◌};
ghost use Rattle.jf_standing.specs.Standing.{versions_of};

use jf_dir::Directory;
use jf_ghost::Remembered;
use std::marker::Model;

/// The versions that an engine showed at a moment, for contracts. It takes no memory, and holds none of their snapshots.
#[derive(Drop)]
pub struct VersionsNote {
    directory: Remembered<Directory>,
}

impl Model for VersionsNote {
    ghost use Rattle.jf_model.specs.Versions.{Versions};
    ghost use Rattle.jf_model.specs.VersionCodes.{versions_code};
    ghost use Rattle.jf_standing.specs.Standing.{versions_of};

    ghost Value = { Versions };

    ghost coded = { versions_code };

    ghost view = { λ n. versions_of n.directory.value };
}

impl VersionsNote {
    // The note of a directory's versions.
    pub(crate) fn of(directory: &Directory) -> VersionsNote
        ensures { result ≡ versions_of directory.now }
    {
        VersionsNote {
            directory: Remembered::of(directory),
        }
    }
}
