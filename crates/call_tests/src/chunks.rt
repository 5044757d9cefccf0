// That the source of a chunk is appended where there is memory; no clause says so.
use chunk_format::{chunks, source_of};
use rb_base::{Memory, Text};
use std::alloc::Global;

/// Whether the sources of two chunks are appended.
fn are_appended(alloc: Global) -> Result<bool, Memory> {
    let mut out = Text::new(alloc);
    for found in chunks(b"a!!b! c!") {
        if let Ok(chunk) = found {
            source_of(alloc, &chunk, &mut out)?;
        }
    }
    Ok(out.as_slice() == b"a!bc".as_slice())
}

#[test]
fn sources_are_appended(rt: HostRuntime) {
    assert!(rt; are_appended(rt.alloc()) == Ok(true));
}
