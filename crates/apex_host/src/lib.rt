//! The host: it carries out scripts of service calls and tells the replies.
#![tactic(auto)]

mod accepting;
mod checking;
mod command;
mod formatting;
mod hearing;
mod laws;
mod opening;
mod reading;
mod running;
mod status;
mod stops;
mod stressing;
mod sweeping;
mod telling;
mod top;

pub use command::Command;
pub use laws::{
    carries_out, counts_load, cuts_of_runs, finds_good, formats, formats_at_every_moment,
    hears_own, keeps_logged_entries, keeps_partitions_apart, refuses_images, refuses_partitions,
    refuses_scripts, refuses_small, refuses_sweeps, refuses_tables, statuses_mean, sweeps,
    tells_usage,
};
pub use status::Status;
pub use top::host;
