//! What a caller of the store names, in one crate. What stands beside it is in docs/CALLERS.md.
#![tactic(auto)]

// keys, values, hashes, and how many threads may work
pub use jf_hash::{Hash, key_of};
pub use jf_join::{FreeGate, Gate, Workers};
pub use jf_path::{Bytes, HashList, Key, MAX_VALUE, Memory, SharedBytes};

// disks, sources and sinks
pub use jf_disk::{Disk, DiskFailed, MAX_SIDE, MemDisk, Side};
pub use jf_folder::{AnyDisk, FaultCause, FileDisk, FileRefused};
pub use jf_io::{IoFailed, MemSink, MemSource, Sink, Source, StdSink, StdSource};

// a store, and what a version says
pub use jf_engine::{
    Engine, EngineFault, Existing, LandFault, Landed, OpenFault, OpenRefused, State,
};
pub use jf_node::Snapshot;
pub use jf_nth::nth;
pub use jf_split::{Batch, BatchFault, BatchList, MAX_KEYS};

// proofs of keys, of many keys, of chunks; a version put together from chunks
pub use jf_multi::{
    Claims, Item, ItemList, ManyFault, ManyProof, are_rising, prove_many, verify_many,
};
pub use jf_proof::{Proof, ProofFault, prove, verify};
pub use jf_range::{
    Frontier, RangeAsk, RangeFault, RangeProof, are_sorted, prove_range, verify_range,
};
pub use jf_restore::{Restore, RestoreRefused, are_short};

// one hash for a growing list; a store that follows another one
pub use jf_accum::{AccumAsk, AccumFault, Accumulator, MemberClaim, verify_extends, verify_member};
pub use jf_follow::{
    FollowFault, FollowRefused, Followed, FollowedInput, Follower, Taken, follow_stream,
};

// a store that sessions share, and their scripts
pub use jf_serve::{
    Ends, InputFault, MAX_INPUT, Outputs, ReportFault, Scripts, ServeRefused, Served, read_scripts,
    serve, write_served,
};
pub use jf_session::{End, Led, Ran, Session, Stop, lead, run};
pub use jf_store::{Closed, Pass, Store, StoreFault, StoreRefused};
