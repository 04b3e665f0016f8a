// Scripts over a real folder, which is opened again for each, and what its files hold at the end.
use jf_folder::FileDisk;
use jf_play::files::{CHECKPOINT, END, LANDING, LANDING_OF_NOTHING, file_bytes};
use jf_play::play::answers;
use jf_play::roots::with_roots;
use std::alloc::Global;
use std::fs::{self, File};
use std::rt::Files;
use std::sync::Wait;
use std::test::Fail;
use std::thread::Threads;

const FOLDER: &str = "jellystore_folder";

const FILE_A: &str = "jellystore_folder/a.jf";

const FILE_B: &str = "jellystore_folder/b.jf";

// Scripts that are run over one folder, the version at which each run opens it, and the replies.
const SCRIPTS: &[(&str, u64, &str)] = &[
    (
        "put 61 =31\ncommit\n",
        0,
        "0 ok pending 1\n1 ok commit 1 R\n",
    ),
    ("root head\ncommit", 1, "0 ok root R\n1 ok commit 2 R\n"),
    ("root head", 2, "0 ok root R\n"),
];

// The disk over the folder.
fn opened_disk<H: Files<File = File>>(rt: &H, alloc: Global) -> Result<Box<FileDisk>, Fail> {
    let disk = FileDisk::at(rt, alloc, FOLDER)?;
    Ok(Box::new(alloc, disk)?)
}

// Runs a script over the folder. Fails unless the run opens it at version `opened` and writes the text `want`.
fn is_opened<H: Files<File = File> + Threads + Wait + Sync>(
    rt: &H,
    alloc: Global,
    script: &str,
    opened: u64,
    want: &[u8],
) -> Result<(), Fail> {
    let disk = opened_disk(rt, alloc)?;
    let _ = answers(rt, alloc, disk, script.as_bytes(), opened, want)?;
    Ok(())
}

#[test]
fn a_folder_is_opened_where_it_stood(rt: HostRuntime) -> Result<(), Fail> {
    let alloc = rt.alloc();
    let _ = fs::remove_dir_all(&rt, FOLDER);
    fs::create_dir(&rt, FOLDER)?;
    for (script, opened, want) in SCRIPTS {
        is_opened(&rt, alloc, script, *opened, &with_roots(alloc, want)?)?;
    }
    let landed = file_bytes(alloc, &[CHECKPOINT, LANDING, LANDING_OF_NOTHING, END])?;
    assert!(rt; fs::read(&rt, FILE_A)?.as_slice() == landed.as_slice());
    assert!(rt; fs::read(&rt, FILE_B)?.is_empty());
    fs::remove_dir_all(&rt, FOLDER)?;
    Ok(())
}
