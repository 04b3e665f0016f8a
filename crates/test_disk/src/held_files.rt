// One file held is enough: a folder that shares a file with one that is open is refused.
use jf_folder::{FaultCause, FileDisk, FileRefused};
use std::fs;
use std::os::unix::fs::symlink;
use std::test::Fail;

const FIRST: &str = "jf_disk_held_first";

const SECOND: &str = "jf_disk_held_second";

// Makes both folders anew, with nothing in them.
fn make_both(rt: &HostRuntime) -> Result<(), Fail> {
    let _ = fs::remove_dir_all(rt, FIRST);
    let _ = fs::remove_dir_all(rt, SECOND);
    fs::create_dir(rt, FIRST)?;
    fs::create_dir(rt, SECOND)?;
    Ok(())
}

fn remove_both(rt: &HostRuntime) -> Result<(), Fail> {
    fs::remove_dir_all(rt, FIRST)?;
    fs::remove_dir_all(rt, SECOND)?;
    Ok(())
}

fn disk(rt: &HostRuntime) -> Result<Box<FileDisk>, Fail> {
    let disk = FileDisk::at(rt, rt.alloc(), FIRST)?;
    Ok(Box::new(rt.alloc(), disk)?)
}

// Whether a folder is refused since a file of it is held.
fn is_held(rt: &HostRuntime, folder: &str) -> bool {
    FileDisk::at(rt, rt.alloc(), folder).err() == Some(FileRefused::DiskFailed(FaultCause::InUse))
}

// Whether the first folder is refused while it is open, after another file got the name of its side A.
fn is_held_by_side_b(rt: &HostRuntime) -> Result<bool, Fail> {
    let held = disk(rt)?;
    fs::write(rt, "jf_disk_held_first/new", b"")?;
    fs::rename(rt, "jf_disk_held_first/new", "jf_disk_held_first/a.jf")?;
    let refused = is_held(rt, FIRST);
    drop(held);
    Ok(refused)
}

#[test]
fn side_b_is_held_too(rt: HostRuntime) -> Result<(), Fail> {
    make_both(&rt)?;
    let refused = is_held_by_side_b(&rt)?;
    remove_both(&rt)?;
    if refused {
        Ok(())
    } else {
        Err(Fail::new("opened twice"))
    }
}

// Whether a folder is refused whose side B is that of an open one, and no side A is made in it.
fn is_refused_with_links(rt: &HostRuntime) -> Result<bool, Fail> {
    let held = disk(rt)?;
    symlink(rt, "../jf_disk_held_first/b.jf", "jf_disk_held_second/b.jf")?;
    let soft = is_held(rt, SECOND);
    fs::remove_file(rt, "jf_disk_held_second/b.jf")?;
    fs::hard_link(rt, "jf_disk_held_first/b.jf", "jf_disk_held_second/b.jf")?;
    let hard = is_held(rt, SECOND);
    drop(held);
    Ok(soft && hard && fs::metadata(rt, "jf_disk_held_second/a.jf").is_err())
}

#[test]
fn a_linked_side_b_is_held(rt: HostRuntime) -> Result<(), Fail> {
    make_both(&rt)?;
    let refused = is_refused_with_links(&rt)?;
    remove_both(&rt)?;
    if refused {
        Ok(())
    } else {
        Err(Fail::new("opened twice"))
    }
}
