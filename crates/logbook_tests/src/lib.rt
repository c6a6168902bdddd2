//! Tests of logbooks and sampling ports: regions by their bytes, moves, what cuts leave, and calls with their replies.
#![tactic(auto)]

#[cfg(test)]
mod calls;
#[cfg(test)]
mod cuts;
#[cfg(test)]
mod moves;
#[cfg(test)]
mod one_book;
#[cfg(test)]
mod ports;
#[cfg(test)]
mod steps;
