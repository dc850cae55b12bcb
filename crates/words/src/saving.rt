// Bytes saved to a file, so that a fault leaves the old file or the new one, whole.
use std::fs::File;
use std::io::Write;
use std::{fs, io};

// Writes the bytes to a new file beside the target, and puts it in the target's place once it is on the disk.
pub fn save(rt: &HostRuntime, path: &str, bytes: &[u8]) -> io::Result<()> {
    let fresh = format!(in rt.alloc(); "{path}.new")?;
    let mut file = File::create(rt, fresh.as_str())?;
    file.write_all(bytes)?;
    file.sync_all()?;
    fs::rename(rt, fresh.as_str(), path)
}
