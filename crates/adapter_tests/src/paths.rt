//! Paths of files that a test makes.
use std::path::PathBuf;
use std::test::Fail;
use std::{env, process};

/// A path of this name in the temporary folder, one for each process.
pub fn temporary_path(rt: &HostRuntime, name: &str) -> Result<PathBuf, Fail> {
    let file = format!(in rt.alloc(); "apexhost-{}-{name}.img", process::id(rt.process()))?;
    let mut path = env::temp_dir(rt)?;
    path.push(file.as_str())?;
    Ok(path)
}
