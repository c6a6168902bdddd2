//! Tests over the sources and the rig in memory, of the host as a whole.
#![tactic(auto)]

#[cfg(test)]
mod tests;
