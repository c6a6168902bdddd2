//! Tests of the adapters, over real files and over faked ones.
#![tactic(auto)]

#[cfg(test)]
mod arguments;
#[cfg(test)]
mod disks;
#[cfg(test)]
mod guarded;
#[cfg(test)]
mod outputs;
#[cfg(test)]
mod paths;
#[cfg(test)]
mod sources;
