// The ready box: a box with a store of marks beside it, that countersigns dockets.
#![tactic(auto)]

mod calls;
mod countersign;
mod join;
mod mark;
mod release;
pub mod slip;
pub mod state;

pub use slip::Slip;
pub use state::ReadyBox;
