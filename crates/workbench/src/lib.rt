// What programs over the box share: a stream of certificates, and the bench's pool.
#![tactic(auto)]

pub mod answer;
pub mod bench;
pub mod stream;
pub mod trusting;

pub use answer::Answer;
pub use trusting::Trusting;
