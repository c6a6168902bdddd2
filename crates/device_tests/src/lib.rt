//! Tests of the device's layers: disks and sources in memory, gates and slots, the journal, and the fields of an image.
#![tactic(auto)]

#[cfg(test)]
mod fields;
#[cfg(test)]
mod journal;
#[cfg(test)]
mod rigs;
#[cfg(test)]
mod slots;
