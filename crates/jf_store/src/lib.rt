//! A store that several passes share: each call of a pass is one event of a history, or a look at it.
#![tactic(auto)]

mod boxed_vault;
mod closing;
mod compacting;
mod event;
mod fault;
mod fork_landing;
mod forking;
mod landed_chain;
mod look;
mod news;
mod pass;
mod pin_back;
mod pin_version;
mod pinning;
mod pins;
mod pruned;
mod pruning;
mod reading;
mod root_list;
mod start;
mod starting;
mod stepping;
mod store;
mod tried;
mod vault;

pub use closing::Closed;
pub use event::Event;
pub use fault::StoreFault;
pub use landed_chain::LandedChain;
pub use look::Look;
pub use pass::Pass;
pub use pin_back::PinBack;
pub use pruned::Pruned;
pub use root_list::RootList;
pub use start::Start;
pub use starting::StoreRefused;
pub use store::Store;
pub use tried::Attempt;
