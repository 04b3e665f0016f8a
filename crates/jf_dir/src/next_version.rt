// The next version, before it is taken.
ghost use Rattle.std.specs.Prelude.{◌≡◌};
ghost use Rattle.jf_dir.specs.Directories.{landing_written};

use crate::spelled_commit::SpelledCommit;
use jf_node::Snapshot;
use std::marker::Model;

/// The next version before it is taken: what its landing writes, and its snapshot.
#[derive(Drop)]
pub struct NextVersion {
    landing: SpelledCommit,
    snapshot: Snapshot,
}

impl Model for NextVersion {
    ghost use Rattle.std.specs.Prelude.{◌≡◌};
    ghost use Rattle.std.specs.Coded.{codes};
    ghost use Rattle.jf_hash.specs.Codes.{map_code};
    ghost use Rattle.jf_node.specs.declared.update.Update.{Update};

    ghost Value = { Update };

    ghost coded = { Prim.hlevel (codes, map_code) };

    ghost view = { λ n. record { root = n.landing.root; fresh = n.landing.fresh; stale = n.landing.stale; snapshot = n.snapshot } };

    ghost invariant = { λ n. n.landing.version ≡ n.snapshot.version };
}

impl NextVersion {
    /// The next version of what its landing writes and its snapshot, which have one version.
    pub(crate) fn of(landing: SpelledCommit, snapshot: Snapshot) -> NextVersion
        requires { landing.version ≡ snapshot.version }
        ensures { result ≡ record { root = landing.root; fresh = landing.fresh; stale = landing.stale; snapshot = snapshot } }
    {
        NextVersion { landing, snapshot }
    }

    /// What its landing writes.
    pub fn landing(&self) -> &SpelledCommit
        ensures { result.now ≡ landing_written self.now }
    {
        &self.landing
    }

    /// Its snapshot.
    pub fn snapshot(&self) -> &Snapshot
        ensures { result.now ≡ self.now.snapshot }
    {
        &self.snapshot
    }

    /// What its landing writes, and its snapshot.
    pub fn into_parts(self) -> (SpelledCommit, Snapshot)
        ensures landing { result.0 ≡ landing_written self }
        ensures snapshot { result.1 ≡ self.snapshot }
    {
        (self.landing, self.snapshot)
    }
}
