//! Tests of the examples in the READMEs of the crates for images and files. They are a separate
//! crate, since a crate's tests prove the crate a second time.
#![tactic(auto)]

#[cfg(test)]
mod tests;
