// What no clause says of the outside, in memory and of the system: that the calls succeed where there is memory. Files in memory,
// and an output in memory that fails, stand in the cases of the program.
use pieces::{PutSink, send};
use rb_base::{Memory, MemorySink, Shelf, ShelfError, Sink, SinkError};
use std::alloc::Global;
use std::test::Fail;
use std::{fs, io};
use system_devices::{FileShelf, Folder, OutSink};

/// Whether an output with room takes a piece.
fn is_put(alloc: Global) -> Result<bool, Memory> {
    let mut sink = MemorySink::new(alloc);
    sink.reserve(16)?;
    Ok(sink.put(b"one ") == Ok(()) && sink.as_slice() == b"one ".as_slice())
}

#[test]
fn an_output_in_memory_gets_room(rt: HostRuntime) {
    assert!(rt; is_put(rt.alloc()) == Ok(true));
}

#[test]
fn a_file_is_written_and_read_or_refused(rt: HostRuntime) -> Result<(), Fail> {
    let path = "/tmp/vizkendu-system-devices-test";
    let mut sink = OutSink::new(fs::create(&rt, path)?);
    assert!(rt; sink.put(b"one two") == Ok(()));
    let mut shelf = FileShelf::new(&rt, rt.alloc());
    let mut into = Vec::new(rt.alloc());
    assert!(rt; shelf.load(path, 6, &mut into) == Err(ShelfError::TooLarge));
    assert!(rt; shelf.load("/tmp/vizkendu-no-such-file", 7, &mut into) == Err(ShelfError::Failed));
    assert!(rt; shelf.load(path, 7, &mut into) == Ok(()));
    assert!(rt; into.as_slice() == b"one two".as_slice());
    fs::remove_file(&rt, path)?;
    Ok(())
}

/// How many bytes the large file has: more than are read or sent at once.
const LARGE: usize = 100_000;

#[test]
fn a_large_file_is_written_and_read(rt: HostRuntime) -> Result<(), Fail> {
    let path = "/tmp/vizkendu-system-devices-large";
    let mut bytes = Vec::new(rt.alloc());
    for number in 0..LARGE {
        bytes.push((number % 251) as u8)?;
    }
    let mut sink = OutSink::new(fs::create(&rt, path)?);
    assert!(rt; sink.put(bytes.as_slice()) == Ok(()));
    let mut shelf = FileShelf::new(&rt, rt.alloc());
    let mut into = Vec::new(rt.alloc());
    assert!(rt; shelf.load(path, LARGE as u32 - 1, &mut into) == Err(ShelfError::TooLarge));
    assert!(rt; shelf.load(path, LARGE as u32, &mut into) == Ok(()));
    assert!(rt; into == bytes);
    fs::remove_file(&rt, path)?;
    Ok(())
}

/// A folder that has this one file under each path.
#[derive(Drop)]
struct OneFile<'a>(&'a [u8]);

impl<'a> Folder for OneFile<'a> {
    ghost use Rattle.std.specs.Prelude.{Some};

    type File = &'a [u8];

    ghost known = { λ s _. Some s.0.now };

    fn open(&self, _path: &str) -> io::Result<&'a [u8]> {
        Ok(self.0)
    }
}

/// What a load from such a folder, and a put of it to an output in memory, give.
fn pass_on(alloc: Global, file: &[u8]) -> Result<bool, Fail> {
    let mut shelf = FileShelf::new(OneFile(file), alloc);
    let mut into = Vec::new(alloc);
    let mut sink = OutSink::new(Vec::new(alloc));
    let loaded = shelf.load("", u32::MAX, &mut into) == Ok(());
    Ok(loaded && sink.put(into.as_slice()) == Ok(()) && into.as_slice() == file)
}

#[test]
fn a_known_file_is_passed_on(rt: HostRuntime) -> Result<(), Fail> {
    assert!(rt; pass_on(rt.alloc(), b"one two")?);
    Ok(())
}

/// An output that keeps each piece that is put.
#[derive(Drop)]
struct Kept {
    alloc: Global,
    pieces: Vec<Vec<u8>>,
}

impl Sink for Kept {
    ghost use Rattle.std.specs.Prelude.{None};

    ghost sent = { λ _. None };

    ghost faults = { λ _. 0 };

    fn put(&mut self, piece: &[u8]) -> Result<(), SinkError> {
        self.put_piece(piece)
    }
}

impl PutSink for Kept {
    ghost use Rattle.std.specs.Prelude.{Some, map};
    ghost use Rattle.pieces.specs.Puts.{Taken};

    ghost puts = { λ s. Some (map (λ piece. Taken piece.items) s.pieces.items) };

    fn put_piece(&mut self, piece: &[u8]) -> Result<(), SinkError> {
        let kept = Vec::from_slice(self.alloc, piece)?;
        match self.pieces.push(kept) {
            Ok(()) => Ok(()),
            Err(_) => Err(SinkError::Memory),
        }
    }
}

/// Whether so many bytes go in pieces of these lengths.
fn goes_in(alloc: Global, count: usize, lengths: &[usize]) -> Result<bool, Fail> {
    let bytes = vec![in alloc; 0u8; count]?;
    let mut out = Kept {
        alloc,
        pieces: Vec::new(alloc),
    };
    let is_sent = send(bytes.as_slice(), &mut out) == Ok(());
    Ok(
        is_sent
            && out
                .pieces
                .iter()
                .map(|piece| piece.len())
                .eq(lengths.iter().copied()),
    )
}

#[test]
fn bytes_go_in_pieces(rt: HostRuntime) -> Result<(), Fail> {
    assert!(rt; goes_in(rt.alloc(), 0, &[])?);
    assert!(rt; goes_in(rt.alloc(), 1024, &[1024])?);
    assert!(rt; goes_in(rt.alloc(), 2500, &[1024, 1024, 452])?);
    Ok(())
}
