//! Seeds of maps whose keys other people choose.
//! Such a map hashes with keys from the system's random bytes, so nobody can choose ids that all meet in one place of it.
//! Its contract says that a seed always makes the same hasher, and nothing of which seed is drawn.
#![tactic(auto)]

mod seed;

pub use seed::Seed;
