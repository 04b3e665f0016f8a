//! A value that all threads are shown: each takes it for a moment, and puts it or another back. It always fits the key that
//! the window was made with. `specs/Rule.antt` has the rule that holds between any two steps of any threads.
#![tactic(auto)]

mod fits;
mod grip;
mod rule;
mod steps;
mod view;
mod window;

pub use fits::Fits;
pub use grip::Grip;
pub use window::Window;
