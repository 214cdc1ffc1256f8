// Seals by LMS of RFC 8554, with LMS type 6 (SHA-256, height 10) and LM-OTS type 4 (SHA-256, W8).
#![tactic(auto)]

mod chains;
mod hashes;
mod keys;
mod tree;
mod verify;

pub use keys::{KEYS, Keys};
