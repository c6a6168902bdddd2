//! Tests of the readers of tables and scripts, of drawn scripts and of told lines, and of the tables in memory below the stores.
#![tactic(auto)]

#[cfg(test)]
mod buffers;
#[cfg(test)]
mod calls;
#[cfg(test)]
mod handles;
#[cfg(test)]
mod loads;
#[cfg(test)]
mod quotas;
#[cfg(test)]
mod replies;
#[cfg(test)]
mod scripts;
#[cfg(test)]
mod tables;
