//! Tests of stored trees over the rig in memory: what power cuts leave of a flight of changes, what faults of the device
//! leave, and how trees are filled to their limits.
#![tactic(auto)]

#[cfg(test)]
mod contents;
#[cfg(test)]
mod cuts;
#[cfg(test)]
mod faults;
#[cfg(test)]
mod flights;
#[cfg(test)]
mod found;
#[cfg(test)]
mod limits;
#[cfg(test)]
mod regions;
