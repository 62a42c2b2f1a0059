//! What is enough for parts of an image to be valid: no code, and lemmas for the crates that make
//! images.
#![tactic(auto)]
