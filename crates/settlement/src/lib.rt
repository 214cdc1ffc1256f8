// The settlement box.
#![tactic(auto)]

mod accept;
pub mod cold;
mod examine;
pub mod faults;
mod reports;
mod restart;
mod setup;
mod take;

pub use accept::is_same;
pub use cold::{ColdBox, SetUpRefused};
pub use faults::BoxFault;
