// The numbers of the standard streams.

use std::fs;
use std::rt::Files;

/// Three handles of the present folder. A program that was started with a standard stream closed gives its number to
/// the next file that it opens: these take it, so that the table is not read as the script and no line is told
/// into a file. A read or a write of a folder fails.
#[derive(Drop)]
pub struct StreamHolders<F>(Option<F>, Option<F>, Option<F>);

impl<F> StreamHolders<F> {
    /// The three handles, opened now. One that can't be opened is left out.
    pub fn open<R: Files<File = F>>(rt: &R) -> StreamHolders<F> {
        StreamHolders(
            fs::open(rt, ".").ok(),
            fs::open(rt, ".").ok(),
            fs::open(rt, ".").ok(),
        )
    }
}
