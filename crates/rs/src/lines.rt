//! Lines on standard error: what an operator is told beside the note of the status.

use rs_face::write_all;
use rs_path::NoMemory;
use rs_stream::StdSink;
use std::alloc::Global;

/// Writes `rs: `, these parts and a line end to standard error, as one write. Where that can't be done, nothing is said.
pub fn say(rt: &HostRuntime, parts: &[&[u8]]) {
    if let Ok(line) = line_of(rt.alloc(), parts) {
        let _ = write_all(&mut StdSink::new(rt.stderr()), line.as_slice());
    }
}

fn line_of(alloc: Global, parts: &[&[u8]]) -> Result<Vec<u8>, NoMemory> {
    let mut line = Vec::new(alloc);
    line.extend_from_slice(b"rs: ")?;
    for part in parts {
        line.extend_from_slice(part)?;
    }
    line.push(b'\n')?;
    Ok(line)
}
