//! Files of the system, read whole and in pieces, and the standard output. No contract says what
//! they have and take.

use std::alloc::Global;
use std::io;
use std::rt::Files;
use tree_parts::{FileShelf, OutSink, Shelf, Sink, read_all};

/// Puts the bytes to the standard output.
fn put(rt: &impl Print, bytes: &[u8]) -> io::Result<()> {
    match OutSink::new(rt).put(bytes) {
        Ok(()) => Ok(()),
        Err(fault) => println!(rt; "not put: {fault:?}"),
    }
}

/// The whole of a file of at most so many bytes: how many it has, and those around the end of its
/// first 64 KiB, or all.
fn whole<F: Shelf>(
    rt: &(impl Print + Alloc<A = Global>),
    shelf: &mut F,
    name: &str,
    limit: u32,
) -> io::Result<()> {
    match read_all(rt.alloc(), shelf, name, u64::from(limit)) {
        Ok(bytes) => {
            let count = bytes.len();
            println!(rt; "{name} within {limit}: {count} bytes")?;
            put(rt, bytes.get(65_527..65_548).unwrap_or(&bytes))
        }
        Err(fault) => println!(rt; "{name} within {limit}: {fault}"),
    }
}

/// Two files of lines of seven bytes that are in the folder of the run, one that is not there, a
/// folder, and an input that is empty.
pub fn wholes(rt: &(impl Print + Alloc<A = Global> + Files)) -> io::Result<()> {
    let mut shelf = FileShelf::new(rt, io::empty());
    for (name, limit) in [
        ("long", 70_000),
        ("long", 69_999),
        ("none", 9),
        (".", 9),
        ("short", 14),
        ("-", 9),
    ] {
        whole(rt, &mut shelf, name, limit)?;
    }
    Ok(())
}

/// Seven bytes of a file from a place on, or fewer at its end.
fn piece<F: Shelf>(rt: &impl Print, shelf: &mut F, name: &str, at: u32) -> io::Result<()> {
    let mut into = [0u8; 7];
    match shelf.read(name, u64::from(at), &mut into) {
        Ok(count) => {
            println!(rt; "{name} from {at}: {count} bytes")?;
            put(rt, &into[..count])
        }
        Err(fault) => println!(rt; "{name} from {at}: {fault:?}"),
    }
}

/// Pieces of two files in turn: next to the one before, far after it, at the end and after the end.
/// Then pieces of a file that is not there, and of an input, which can only be read onward.
pub fn pieces(rt: &(impl Print + Files)) -> io::Result<()> {
    let mut shelf = FileShelf::new(rt, &b"typed1\nend\n"[..]);
    for (name, at) in [
        ("long", 0),
        ("short", 7),
        ("long", 7),
        ("long", 14),
        ("long", 65_534),
        ("none", 65_541),
        ("long", 69_997),
        ("-", 0),
        ("long", 70_000),
        ("short", 70_000),
        ("-", 7),
        ("-", 0),
    ] {
        piece(rt, &mut shelf, name, at)?;
    }
    Ok(())
}
