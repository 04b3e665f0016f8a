// What a follower did with a landing.
use jf_engine::Landed;

/// What a follower did with a landing that it took.
#[derive(Clone, Copy, Debug, PartialEq, Eq)]
pub enum Taken {
    /// The version was there already, with this root. Nothing changed.
    Already,
    /// The batch landed, and the version is the head.
    Landed(Landed),
}
