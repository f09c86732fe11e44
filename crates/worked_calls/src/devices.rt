//! Sources, sinks and shelves: those in memory, and those over readers, writers and the current folder.

use bp_outside::{
    DropSink, Failed, FetchFault, FolderShelf, InputSource, MemoryShelf, MemorySink, MemorySource,
    NamedFile, OutputSink, Shelf, Sink, Source, SteadyShelf, SteadySource, write_all,
};
use cbor_profile::{Bytes, List};
use std::alloc::Global;
use std::io::{ErrorKind, Read, Write};
use std::process::Abort;
use std::test::Fail;
use std::{fs, io};

fn bytes_of(alloc: Global, text: &[u8]) -> Result<Bytes, Fail> {
    Ok(Bytes::of(Vec::from_slice(alloc, text)?))
}

fn numbers(alloc: Global, numbers: &[u64]) -> Result<List<u64>, Fail> {
    Ok(List::of(Vec::from_slice(alloc, numbers)?))
}

fn file(alloc: Global, name: &[u8], bytes: &[u8]) -> Result<NamedFile, Fail> {
    Ok(NamedFile {
        name: bytes_of(alloc, name)?,
        bytes: bytes_of(alloc, bytes)?,
    })
}

// Two files of one name, and another.
fn files(alloc: Global) -> Result<List<NamedFile>, Fail> {
    let mut files = Vec::new(alloc);
    files.push(file(alloc, b"ring", b"first")?)?;
    files.push(file(alloc, b"ring", b"second")?)?;
    files.push(file(alloc, b"plan", b"")?)?;
    Ok(List::of(files))
}

// Reads once, into a buffer of three bytes.
fn expect_read<S: Source>(rt: &impl Abort, source: &mut S, want: Result<&[u8], Failed>) {
    let mut buf = [0; 3];
    match source.read(&mut buf) {
        Ok(n) => assert_eq!(rt; Ok(&buf[..n]), want),
        Err(fault) => assert_eq!(rt; Err(fault), want),
    }
}

// Fetches a name, over what an earlier fetch left.
fn expect_fetch<S: Shelf>(
    rt: &impl Abort,
    shelf: &mut S,
    out: &mut Bytes,
    name: &str,
    want: (Result<(), FetchFault>, &[u8]),
) {
    let answer = shelf.fetch(name, 5, out);
    assert_eq!(rt; (answer, out.as_slice()), want, "{name}");
}

#[test]
fn sources(rt: HostRuntime) -> Result<(), Fail> {
    let alloc = rt.alloc();
    let mut source = MemorySource::new(bytes_of(alloc, b"abc")?, 2, numbers(alloc, &[0, 2])?);
    expect_read(&rt, &mut source, Err(Failed));
    expect_read(&rt, &mut source, Ok(b"ab"));
    expect_read(&rt, &mut source, Err(Failed));
    expect_read(&rt, &mut source, Ok(b"c"));
    expect_read(&rt, &mut source, Ok(b""));
    let mut source = SteadySource::new(bytes_of(alloc, b"abcd")?, 9);
    expect_read(&rt, &mut source, Ok(b"abc"));
    expect_read(&rt, &mut source, Ok(b"d"));
    expect_read(&rt, &mut source, Ok(b""));
    Ok(())
}

#[test]
fn sinks(rt: HostRuntime) -> Result<(), Fail> {
    let alloc = rt.alloc();
    let mut sink = MemorySink::new(alloc, 4, numbers(alloc, &[0])?)?;
    assert_eq!(rt; write_all(&mut sink, b"ab"), Err(Failed));
    assert_eq!(rt; write_all(&mut sink, b"ab"), Ok(()));
    assert_eq!(rt; sink.write(b"cde"), Ok(2));
    assert_eq!(rt; sink.write(b""), Ok(0));
    assert_eq!(rt; write_all(&mut sink, b"e"), Err(Failed));
    assert_eq!(rt; sink.bytes(), b"abcd".as_slice());
    assert_eq!(rt; write_all(&mut DropSink, b"ab"), Ok(()));
    Ok(())
}

#[test]
fn shelves(rt: HostRuntime) -> Result<(), Fail> {
    let alloc = rt.alloc();
    let mut out = bytes_of(alloc, b"before")?;
    let mut shelf = MemoryShelf::new(alloc, files(alloc)?, numbers(alloc, &[1])?);
    expect_fetch(&rt, &mut shelf, &mut out, "ring", (Ok(()), b"first"));
    expect_fetch(
        &rt,
        &mut shelf,
        &mut out,
        "plan",
        (Err(FetchFault::Failed), b""),
    );
    expect_fetch(&rt, &mut shelf, &mut out, "plan", (Ok(()), b""));
    expect_fetch(
        &rt,
        &mut shelf,
        &mut out,
        "none",
        (Err(FetchFault::Failed), b""),
    );
    let mut shelf = SteadyShelf::new(files(alloc)?);
    expect_fetch(&rt, &mut shelf, &mut out, "ring", (Ok(()), b"first"));
    expect_fetch(&rt, &mut shelf, &mut out, "none", (Ok(()), b""));
    assert_eq!(rt; shelf.fetch("ring", 3, &mut out), Err(FetchFault::TooLong));
    assert_eq!(rt; out.as_slice(), b"firs".as_slice());
    Ok(())
}

#[test]
fn real_streams(rt: HostRuntime) -> Result<(), Fail> {
    let mut text = b"abcd".as_slice();
    let mut source = InputSource::new(&mut text);
    expect_read(&rt, &mut source, Ok(b"abc"));
    expect_read(&rt, &mut source, Ok(b"d"));
    expect_read(&rt, &mut source, Ok(b""));
    let mut room = [0; 2];
    let mut sink = OutputSink::new(room.as_mut_slice());
    assert_eq!(rt; sink.write(b"abc"), Ok(2));
    assert_eq!(rt; sink.write(b"c"), Err(Failed));

    // What `main` holds of them.
    assert_eq!(rt; InputSource::new(rt.stdin()).read(&mut []), Ok(0));
    assert_eq!(rt; OutputSink::new(rt.stdout()).write(b""), Ok(0));
    assert_eq!(rt; OutputSink::new(rt.stderr()).write(b""), Ok(0));
    Ok(())
}

// A device that counts what it is asked, and fails from some call on.
#[derive(Drop)]
struct Counting {
    calls: u64,
    flushes: u64,
    good: u64,
}

impl Counting {
    fn call(&mut self) -> io::Result<()> {
        self.calls = self.calls.saturating_add(1);
        if self.calls <= self.good {
            Ok(())
        } else {
            Err(io::Error::from(ErrorKind::Other))
        }
    }
}

impl Read for Counting {
    fn read(&mut self, buf: &mut [u8]) -> io::Result<usize> {
        self.call()?;
        Ok(buf.len())
    }
}

impl Write for Counting {
    fn write(&mut self, buf: &[u8]) -> io::Result<usize> {
        self.call()?;
        Ok(buf.len())
    }

    fn flush(&mut self) -> io::Result<()> {
        self.flushes = self.flushes.saturating_add(1);
        self.call()
    }
}

#[test]
fn each_write_is_flushed(rt: HostRuntime) {
    let mut device = Counting {
        calls: 0,
        flushes: 0,
        good: 5,
    };
    let mut sink = OutputSink::new(&mut device);
    assert_eq!(rt; sink.write(b"abc"), Ok(3));
    assert_eq!(rt; sink.write(b"d"), Ok(1));
    // The write is taken, and its flush fails; then the write fails.
    assert_eq!(rt; sink.write(b"e"), Err(Failed));
    assert_eq!(rt; sink.write(b"f"), Err(Failed));
    assert_eq!(rt; (device.calls, device.flushes), (7, 3));
}

#[test]
fn failed_reads_are_not_tried_again(rt: HostRuntime) {
    let mut device = Counting {
        calls: 0,
        flushes: 0,
        good: 1,
    };
    let mut source = InputSource::new(&mut device);
    expect_read(&rt, &mut source, Ok(&[0; 3]));
    expect_read(&rt, &mut source, Err(Failed));
    expect_read(&rt, &mut source, Err(Failed));
    assert_eq!(rt; device.calls, 3);
}

#[test]
fn real_folder(rt: HostRuntime) -> Result<(), Fail> {
    let alloc = rt.alloc();
    let mut out = bytes_of(alloc, b"before")?;
    let mut shelf = FolderShelf::new(alloc, rt);
    fs::write(&rt, "bp_outside_ring", "first")?;
    expect_fetch(
        &rt,
        &mut shelf,
        &mut out,
        "bp_outside_ring",
        (Ok(()), b"first"),
    );
    assert_eq!(rt;
        shelf.fetch("bp_outside_ring", 4, &mut out),
        Err(FetchFault::TooLong)
    );
    assert_eq!(rt; out.as_slice(), b"first".as_slice());
    fs::remove_file(&rt, "bp_outside_ring")?;
    expect_fetch(
        &rt,
        &mut shelf,
        &mut out,
        "bp_outside_ring",
        (Err(FetchFault::Failed), b""),
    );
    expect_fetch(
        &rt,
        &mut shelf,
        &mut out,
        ".",
        (Err(FetchFault::Failed), b""),
    );
    Ok(())
}
