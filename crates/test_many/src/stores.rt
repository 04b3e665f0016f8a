// A store with one name, and what is written of it.

/// A script of one version, with one name.
pub(crate) const ONE_NAME: &str = "put 61 =31\ncommit\n";

/// The block of that version on the names 61 and 62.
pub(crate) const BLOCK: &str = "many 2 1\n\
    claim 61 =31\n\
    claim 62 none\n\
    end 19d5f57c8e8b3cd760f853bb8d7900d68e10ef02674383de65a9b4d65e419b26 f254fd9353abb55f60a0942b46382c2428aa019d102cd9985275c0fb42a8dbb3\n";
