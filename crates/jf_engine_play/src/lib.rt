//! Shared by the tests of the store over two files: stores on disks in memory, the steps that are taken on them, and
//! roots of small maps.
#![tactic(auto)]

pub mod entries;
pub mod roots;
pub mod steps;
pub mod stores;
