//! A follower is a store that takes the landings of another store. It finds the root of each in memory before it writes, and
//! refuses the first landing that doesn't result in the announced root.
#![tactic(auto)]

mod fault;
mod followed;
mod follower;
mod following;
mod judging;
mod landing;
mod laws;
mod stream;
mod taken;

pub use fault::FollowFault;
pub use followed::{FollowRefused, Followed};
pub use follower::Follower;
pub use laws::{
    blocks_come_again, followed_is_history, followers_agree, followers_collide,
    followers_of_text_agree, followers_refuse_only_last, following_goes_on, following_is_legal,
    following_replays, inputs_agree, inputs_decide, results_are_exact,
};
pub use stream::{FollowedInput, follow_stream};
pub use taken::Taken;
