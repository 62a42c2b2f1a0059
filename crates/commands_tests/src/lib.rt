//! Tests of commands through public calls. They are a separate crate, since a crate's tests prove
//! the crate a second time.
#![tactic(auto)]

#[cfg(test)]
mod tests;
