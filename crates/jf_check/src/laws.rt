// Laws of what files show. These functions do nothing when they run.
ghost use Rattle.jf_check.specs.Laws.{FilesShowOneThing, LiveNumbersAreTheVersions, SizesAddUp};

use jf_files::{damage_has_one_place, damage_is_no_versions, files_stand_for_one};
use jf_payload::spelled_is_spelling;
use jf_standing::{items_lead_to_one, spelled_is_read};

/// The live file of files that represent versions shows the numbers of these versions, and the files' generation.
pub fn live_numbers_are_the_versions()
    ensures { LiveNumbersAreTheVersions }
{
    spelled_is_spelling();
}

/// A file that has a record is its records, the closed gate after them, and the bytes behind that gate.
pub fn sizes_add_up()
    ensures { SizesAddUp }
{}

/// Two files show one thing: what is said of them follows from their bytes.
pub fn files_show_one_thing()
    ensures { FilesShowOneThing }
{
    damage_has_one_place();
    damage_is_no_versions();
    files_stand_for_one();
    items_lead_to_one();
    spelled_is_read();
}
