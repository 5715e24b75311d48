// The objects over the system: no clause can say what a file, a stream or the system's clock gives.
use super::otherwise::{Findings, Otherwise, expect, expect_number};
use reg_outside::{
    Access, Clock, Disk, Failed, FileDisk, Sink, Source, StdSink, StdSource, SureSink, SystemClock,
    write_whole,
};
use std::alloc::Global;
use std::cell::Cell;
use std::fs::{exists, metadata, remove_file};
use std::io::{self, ErrorKind, Read, Write};
use std::os::unix::fs::{PermissionsExt, symlink};
use std::rt;
use std::time::Duration;

const FILE: &str = "file_disk_test";

const OWNED: &str = "file_disk_owned";

const ABSENT: &str = "file_disk_absent";

const READ: &str = "file_disk_read";

const LINK: &str = "file_disk_link";

const LINKED: &str = "file_disk_linked";

/// A file gives back what was written, and nothing to another disk before the first one is dropped.
pub fn play_file(rt: &HostRuntime) -> Result<(), Otherwise> {
    let _ = remove_file(rt, FILE);
    let mut test = Findings::new();
    let mut disk = FileDisk::new(rt, FILE, Access::Make);
    let mut other = FileDisk::new(rt, FILE, Access::Make);
    let mut buf = [0u8; 8];
    test.expect(
        disk.write_at(0, b"abc") == Ok(()),
        "three bytes are written",
    );
    test.expect(
        disk.write_at(2, b"de") == Ok(()),
        "two are written from the third on",
    );
    test.expect(disk.sync() == Ok(()), "they are synced");
    test.expect(
        disk.read_at(1, &mut buf) == Ok(3),
        "three are read from the second on",
    );
    test.expect(buf.starts_with(b"bde"), "they are those that were written");
    test.expect(
        disk.read_at(4, &mut buf) == Ok(0),
        "none is read at the end",
    );
    test.expect(
        other.len() == Err(Failed),
        "another disk has no length of a locked file",
    );
    test.expect(
        other.write_at(0, b"x") == Err(Failed),
        "and writes nothing to it",
    );
    drop(disk);
    test.expect(
        other.len() == Ok(4),
        "it has the length once the lock is gone",
    );
    test.expect(remove_file(rt, FILE).is_ok(), "the file can be removed");
    test.end()
}

/// A file that another disk has locked is read, beside what is written to it, and not written.
pub fn play_beside(rt: &HostRuntime) -> Result<(), Otherwise> {
    let _ = remove_file(rt, READ);
    let mut test = Findings::new();
    let mut reader = FileDisk::new(rt, READ, Access::Read);
    test.expect(reader.len() == Ok(0), "an absent file has no length");
    test.expect(matches!(exists(rt, READ), Ok(false)), "it isn't made");
    let mut disk = FileDisk::new(rt, READ, Access::Make);
    test.expect(disk.write_at(0, b"abc") == Ok(()), "another writes");
    let mut buf = [0u8; 8];
    test.expect(
        matches!(reader.len(), Ok(length) if length > 3),
        "its length leaves room for what is added",
    );
    test.expect(disk.write_at(3, b"de") == Ok(()), "the other adds");
    test.expect(
        reader.read_at(0, &mut buf) == Ok(5),
        "what was added is read",
    );
    test.expect(buf.starts_with(b"abcde"), "it is what was written");
    test.expect(reader.sync() == Ok(()), "it is synced");
    test.expect(reader.write_at(0, b"x") == Err(Failed), "a write fails");
    test.expect(remove_file(rt, READ).is_ok(), "the file can be removed");
    test.end()
}

/// The mode of a file.
fn mode_of(rt: &HostRuntime, path: &str) -> Option<u32> {
    let about = metadata(rt, path).ok()?;
    Some(about.permissions().mode() & 0o777)
}

/// A file that is made is for its owner alone.
pub fn play_owner(rt: &HostRuntime) -> Result<(), Otherwise> {
    let _ = remove_file(rt, OWNED);
    let mut test = Findings::new();
    let mut disk = FileDisk::new(rt, OWNED, Access::Make);
    test.expect(disk.write_at(0, b"a") == Ok(()), "a byte is written");
    test.expect(
        mode_of(rt, OWNED) == Some(0o600),
        "the owner alone reads and writes the file",
    );
    test.expect(remove_file(rt, OWNED).is_ok(), "the file can be removed");
    test.end()
}

/// In a folder that isn't there nothing is synced, nor anything written past all files.
pub fn play_no_folder(rt: &HostRuntime) -> Result<(), Otherwise> {
    let mut test = Findings::new();
    let mut absent = FileDisk::new(rt, "no_folder/file_disk_test", Access::Make);
    test.expect(absent.sync() == Err(Failed), "a sync fails in no folder");
    let is_written = absent.write_at((1 << 63) - 1, b"f");
    test.expect(is_written == Err(Failed), "a write past all files fails");
    test.end()
}

/// A file that is to stay absent counts as empty, and isn't made by a write.
pub fn play_absent(rt: &HostRuntime) -> Result<(), Otherwise> {
    let mut test = Findings::new();
    let mut disk = FileDisk::new(rt, ABSENT, Access::Write);
    test.expect(disk.reason().is_none(), "at first there is no reason");
    test.expect(disk.len() == Ok(0), "its length is 0");
    test.expect(disk.read_at(0, &mut [0u8; 8]) == Ok(0), "nothing is read");
    test.expect(disk.sync() == Ok(()), "it is synced");
    test.expect(disk.write_at(0, b"a") == Err(Failed), "a write fails");
    let is_told = matches!(disk.reason(), Some(ErrorKind::NotFound));
    test.expect(is_told, "the reason is that it isn't found");
    test.expect(matches!(exists(rt, ABSENT), Ok(false)), "it isn't made");
    test.end()
}

/// Behind a link a file is opened, and not made.
pub fn play_link(rt: &HostRuntime) -> Result<(), Otherwise> {
    let _ = remove_file(rt, LINK);
    let _ = remove_file(rt, LINKED);
    let mut test = Findings::new();
    test.expect(symlink(rt, LINKED, LINK).is_ok(), "a link is made");
    let mut behind = FileDisk::new(rt, LINK, Access::Make);
    test.expect(
        behind.write_at(0, b"a") == Err(Failed),
        "a write through it fails",
    );
    test.expect(
        matches!(exists(rt, LINKED), Ok(false)),
        "no file is made behind it",
    );
    let mut disk = FileDisk::new(rt, LINKED, Access::Make);
    test.expect(
        disk.write_at(0, b"ab") == Ok(()),
        "the file is made by its own name",
    );
    drop(disk);
    test.expect(behind.len() == Ok(2), "then it is opened through the link");
    test.expect(remove_file(rt, LINK).is_ok(), "the link can be removed");
    test.expect(remove_file(rt, LINKED).is_ok(), "the file can be removed");
    test.end()
}

/// Gives two bytes, and fails from then on.
#[derive(Drop)]
struct Short {
    gave: bool,
}

impl Read for Short {
    fn read(&mut self, buf: &mut [u8]) -> io::Result<usize> {
        if self.gave || buf.len() < 2 {
            return Err(io::Error::from(ErrorKind::Other));
        }
        self.gave = true;
        buf[..2].copy_from_slice(b"ab");
        Ok(2)
    }
}

/// A reader is read until it fails.
pub fn play_reader() -> Result<(), Otherwise> {
    let mut source = StdSource::new(Short { gave: false });
    let mut buf = [0u8; 3];
    expect(source.read(&mut buf) == Ok(2), "two bytes are read")?;
    expect(
        buf == *b"ab\0",
        "they are the reader's, and nothing is behind them",
    )?;
    expect(source.read(&mut buf) == Err(Failed), "the next read fails")?;
    expect(source.read(&mut buf) == Err(Failed), "and so does one more")
}

/// Takes a byte per write, and none once there is no room.
struct Narrow<'a> {
    bytes: &'a mut Vec<u8>,
    room: usize,
}

impl Drop for Narrow<'_> {
    fn drop(self) {
        let Narrow { bytes: _, room: _ } = self;
    }
}

impl Write for Narrow<'_> {
    fn write(&mut self, bytes: &[u8]) -> io::Result<usize> {
        if self.bytes.len() >= self.room || bytes.is_empty() {
            return Ok(0);
        }
        self.bytes.push(bytes[0])?;
        Ok(1)
    }

    fn flush(&mut self) -> io::Result<()> {
        Err(io::Error::from(ErrorKind::BrokenPipe))
    }
}

/// Writes three bytes to a writer that takes four, then two more, and flushes.
fn write_some(bytes: &mut Vec<u8>) -> Result<(), Otherwise> {
    let mut sink = StdSink::new(Narrow { bytes, room: 4 });
    expect(
        write_whole(&mut sink, b"abc") == Ok(()),
        "three bytes are written",
    )?;
    expect(
        write_whole(&mut sink, b"de") == Err(Failed),
        "of two more there is no room for one",
    )?;
    expect(
        sink.flush() == Err(Failed),
        "the writer's failed flush is told",
    )
}

/// What is written is written whole, or it fails.
pub fn play_writer(alloc: Global) -> Result<(), Otherwise> {
    let mut bytes = Vec::new(alloc);
    write_some(&mut bytes)?;
    expect(
        bytes.as_slice() == b"abcd".as_slice(),
        "what found room was written",
    )?;
    expect(
        write_whole(&mut SureSink::new(), b"abc") == Ok(()),
        "a sure sink takes all",
    )
}

/// A wall clock that gives the times of a table in turn.
#[derive(Drop)]
struct Wall {
    at: Cell<u8>,
}

impl rt::Clock for Wall {
    fn monotonic(&self) -> io::Result<Duration> {
        Ok(Duration::ZERO)
    }

    fn since_1970(&self) -> io::Result<Duration> {
        let at = self.at.get();
        self.at.set(at.saturating_add(1));
        match at {
            1 => Ok(Duration::new(1, 1_500)),
            3 => Ok(Duration::MAX),
            5 => Err(io::Error::from(ErrorKind::InvalidData)),
            6 => Ok(Duration::new(0, 2_499)),
            _ => Err(io::Error::from(ErrorKind::Other)),
        }
    }
}

/// The microseconds of the greatest moment.
const GREATEST: u64 = 253_402_300_799_999_999;

/// The system's clock gives the nearest moment, or where it fails the last one.
pub fn play_clock() -> Result<(), Otherwise> {
    let wall = Wall { at: Cell::new(0) };
    let mut clock = SystemClock::new(&wall);
    for wanted in [0, 1_000_002, 1_000_002, GREATEST, GREATEST, 0, 2] {
        expect_number(clock.now().micros(), wanted, "the moment in microseconds")?;
    }
    Ok(())
}
