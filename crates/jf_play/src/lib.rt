//! Shared by the tests of the top call: runs over disks, sources and sinks in memory, what a crash leaves of a disk, files
//! byte by byte, and roots and chunk blocks of small maps.
#![tactic(auto)]

pub mod blocks;
pub mod files;
pub mod images;
pub mod play;
pub mod roots;
