//! Files and outputs: those of the host, those that are kept in memory, and those that never fail.
ghost use Rattle.std.specs.Prelude.{◌<◌};

use cerco_base::{
    FileSink, Files, HostFiles, HostOut, IoFault, MemoryFiles, MemorySink, ReadFault, Sink,
    SoundFiles, SoundSink, put_all, read_whole, write_file,
};
use std::alloc::Global;
use std::process::{self, Abort};
use std::test::Fail;

// Writes a file in two pieces.
fn write_pieces<F: Files>(files: &mut F, name: &str) -> Result<(), IoFault> {
    write_file(files, name, b"one")?;
    put_all(&mut FileSink { files, name }, b" two")
}

// A file's first bytes, so many at most, are these.
fn expect_front<F: Files>(
    rt: &impl Abort,
    alloc: Global,
    files: &mut F,
    name: &str,
    limit: usize,
    front: &str,
) -> Result<(), ReadFault>
    requires { 0 < limit }
{
    let text = read_whole(alloc, files, name, limit)?;
    assert_eq!(rt; text.as_slice(), front.as_bytes(), "{name} up to {limit}");
    Ok(())
}

// What is written over any files is read again.
fn round_trip<F: Files>(
    rt: &impl Abort,
    alloc: Global,
    files: &mut F,
    name: &str,
) -> Result<(), Fail> {
    write_pieces(files, name)?;
    expect_front(rt, alloc, files, name, 100, "one two")?;
    expect_front(rt, alloc, files, name, 2, "on")?;
    Ok(())
}

// A file can't be made inside a file, and a file that isn't there is missing.
fn expect_faults<F: Files>(rt: &impl Abort, files: &mut F, inside: &str, missing: &str) {
    assert_eq!(rt; files.create(inside), Err(IoFault::Failed), "{inside}");
    let mut piece = [0; 4];
    assert_eq!(rt;
        files.read_at(missing, 0, &mut piece),
        Err(ReadFault::Missing),
        "{missing}"
    );
}

#[test]
fn the_host_keeps_what_is_written(rt: HostRuntime) -> Result<(), Fail> {
    let alloc = rt.alloc();
    let name = format!(in alloc; "/tmp/cerco_base_{}", process::id(rt.process()))?;
    let inside = format!(in alloc; "{name}/none")?;
    let missing = format!(in alloc; "{name}.none")?;
    let mut files = HostFiles::new(alloc, rt);
    round_trip(&rt, alloc, &mut files, &name)?;
    expect_faults(&rt, &mut files, &inside, &missing);
    std::fs::remove_file(&rt, &name)?;
    put_all(&mut HostOut::new(rt), b"the host's output\n")?;
    Ok(())
}

#[test]
fn files_in_memory_keep_what_is_written(rt: HostRuntime) -> Result<(), Fail> {
    let alloc = rt.alloc();
    round_trip(&rt, alloc, &mut SoundFiles::new(alloc), "a")?;
    round_trip(&rt, alloc, &mut MemoryFiles::new(alloc), "a")
}

#[test]
fn a_call_with_that_number_fails(rt: HostRuntime) -> Result<(), Fail> {
    let mut files = MemoryFiles::new(rt.alloc());
    files.place("b", b"x")?;
    files.fail(1)?;
    let mut piece = [0; 4];
    assert_eq!(rt; files.read_at("b", 0, &mut piece), Ok(1));
    assert_eq!(rt; files.create("b"), Err(IoFault::Failed));
    assert_eq!(rt; files.bytes("b").unwrap_or(b""), b"x".as_slice());
    assert_eq!(rt; files.append("c", b"y"), Ok(1));
    assert_eq!(rt; files.bytes("c").unwrap_or(b""), b"y".as_slice());
    assert_eq!(rt; files.bytes("d").is_none(), true);
    Ok(())
}

#[test]
fn outputs_in_memory_keep_what_is_put(rt: HostRuntime) -> Result<(), Fail> {
    let mut out = MemorySink::new(rt.alloc());
    out.fail(1)?;
    assert_eq!(rt; out.put(b"ab"), Ok(2));
    assert_eq!(rt; out.put(b"c"), Err(IoFault::Failed));
    assert_eq!(rt; out.put(b"d"), Ok(1));
    assert_eq!(rt; out.bytes(), b"abd".as_slice());
    let mut sound = SoundSink::new(rt.alloc());
    put_all(&mut sound, b"ab")?;
    assert_eq!(rt; sound.bytes(), b"ab".as_slice());
    Ok(())
}

#[test]
fn short_calls_in_memory_move_no_more(rt: HostRuntime) -> Result<(), Fail> {
    let alloc = rt.alloc();
    let mut files = MemoryFiles::new(alloc);
    files.place("a", b"abcd")?;
    files.piece(3);
    let mut piece = [0; 4];
    assert_eq!(rt; files.read_at("a", 0, &mut piece), Ok(3));
    assert_eq!(rt; files.read_at("a", 3, &mut piece), Ok(1));
    assert_eq!(rt; files.append("a", b"efgh"), Ok(3));
    assert_eq!(rt; files.bytes("a").unwrap_or(b""), b"abcdefg".as_slice());
    files.piece(1);
    round_trip(&rt, alloc, &mut files, "b")?;
    let mut out = MemorySink::new(alloc);
    out.piece(1);
    assert_eq!(rt; out.put(b"ab"), Ok(1));
    put_all(&mut out, b"bc")?;
    assert_eq!(rt; out.bytes(), b"abc".as_slice());
    Ok(())
}
