//! Tests of trees: their names, the bodies that spell them, and regions that are mounted.
#![tactic(auto)]

#[cfg(test)]
mod bodies;
#[cfg(test)]
mod fixture;
#[cfg(test)]
mod names;
#[cfg(test)]
mod places;
#[cfg(test)]
mod regions;
