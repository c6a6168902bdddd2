//! Scripts, from their text to their lines, and replies, from their values to the line that tells them.
#![tactic(auto)]

mod arguments;
mod calls;
mod deeds;
mod errors;
mod parse;
mod reply;
mod reply_text;
mod script;
mod words;

pub use arguments::number_of;
pub use deeds::partition_named;
pub use errors::ScriptError;
pub use parse::parse_script;
pub use reply::{fault_line, refusal_line, reply_line};
pub use reply_text::ReplyText;
pub use script::Script;
