//! Tests of a device that is formatted for a table and found again, under power cuts and failing calls.
#![tactic(auto)]

#[cfg(test)]
mod fixture;
#[cfg(test)]
mod formats;
#[cfg(test)]
mod places;
#[cfg(test)]
mod superblocks;
