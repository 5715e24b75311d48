// The objects in memory that a run is handed, and what the run came to.
use crate::connection::Connection;
use crate::responses::add_responses;
use crate::run::Run;
use reg_outside::{
    Incoming, ListClock, MemoryConn, MemoryDisk, MemoryListener, MemorySink, MemorySource,
};
use reg_run::run;
use std::alloc::{AllocError, Global};

/// The bytes of the disk, and of the second one.
#[derive(Drop)]
pub struct Disks {
    pub first: Vec<u8>,
    pub second: Vec<u8>,
}

impl Disks {
    /// Both are empty.
    pub fn new(alloc: Global) -> Disks {
        Disks {
            first: Vec::new(alloc),
            second: Vec::new(alloc),
        }
    }

    /// Disks of these bytes.
    pub fn of(alloc: Global, first: &[u8], second: &[u8]) -> Result<Disks, AllocError> {
        Ok(Disks {
            first: first.to_vec(alloc)?,
            second: second.to_vec(alloc)?,
        })
    }

    /// A disk of these bytes, and an empty second one.
    pub fn of_first(alloc: Global, first: &[u8]) -> Result<Disks, AllocError> {
        Ok(Disks {
            first: first.to_vec(alloc)?,
            second: Vec::new(alloc),
        })
    }

    /// Disks of the same bytes.
    pub fn again(&self, alloc: Global) -> Result<Disks, AllocError> {
        Disks::of(alloc, &self.first, &self.second)
    }
}

/// What a run came to: its lines, and the bytes of its disks.
#[derive(Drop)]
pub struct Outcome {
    pub lines: String,
    pub disks: Disks,
}

/// The objects that a run is handed.
#[derive(Drop)]
pub struct Objects {
    input: MemorySource,
    pub out: MemorySink,
    notes: MemorySink,
    pub disk: MemoryDisk,
    pub second: MemoryDisk,
    clock: ListClock,
    net: MemoryListener,
}

fn source_of(alloc: Global, given: &Run, piece: usize) -> Result<MemorySource, AllocError> {
    let fail = given.fail_read.to_vec(alloc)?;
    let bytes = given.input.to_vec(alloc)?;
    Ok(MemorySource::new(bytes, piece.max(1), fail))
}

fn sink_of(alloc: Global, fail: &[u64]) -> Result<MemorySink, AllocError> {
    let fail = fail.to_vec(alloc)?;
    Ok(MemorySink::new(alloc, fail))
}

fn disk_of(alloc: Global, bytes: &[u8], fail: &[u64]) -> Result<MemoryDisk, AllocError> {
    let fail = fail.to_vec(alloc)?;
    let bytes = bytes.to_vec(alloc)?;
    MemoryDisk::new(alloc, bytes, fail)
}

fn clock_of(alloc: Global, given: &Run) -> Result<ListClock, AllocError> {
    let mut moments = given.moments.to_vec(alloc)?;
    if moments.is_empty() {
        moments.push(given.now)?;
    }
    Ok(ListClock::new(moments))
}

fn conn_of(alloc: Global, connection: &Connection, piece: usize) -> Result<MemoryConn, AllocError> {
    let bytes = connection.bytes.to_vec(alloc)?;
    let fail = connection.fail.to_vec(alloc)?;
    Ok(MemoryConn::new(alloc, bytes, piece.max(1), fail))
}

fn incoming_of(
    alloc: Global,
    connection: &Connection,
    piece: usize,
) -> Result<Incoming, AllocError> {
    match connection.sender {
        None => Ok(Incoming::Opens(conn_of(alloc, connection, piece)?)),
        Some(number) => Ok(Incoming::Sends(number, connection.bytes.to_vec(alloc)?)),
    }
}

fn listener_of(alloc: Global, given: &Run, piece: usize) -> Result<MemoryListener, AllocError> {
    let fail = given.fail_net.to_vec(alloc)?;
    let mut incoming = Vec::new(alloc);
    for connection in &given.connections {
        incoming.push(incoming_of(alloc, connection, piece)?)?;
    }
    MemoryListener::new(alloc, incoming, fail)
}

impl Objects {
    /// The objects of a run over disks with these bytes, with so many bytes of input in a read at
    /// most. Nothing is done yet.
    pub fn new(
        alloc: Global,
        given: &Run,
        disks: &Disks,
        piece: usize,
    ) -> Result<Objects, AllocError> {
        let disk = disk_of(alloc, &disks.first, &given.fail_disk)?;
        let second = disk_of(alloc, &disks.second, &given.fail_second)?;
        let clock = clock_of(alloc, given)?;
        let input = source_of(alloc, given, piece)?;
        let notes = sink_of(alloc, &given.fail_note)?;
        let out = sink_of(alloc, &given.fail_write)?;
        let net = listener_of(alloc, given, piece)?;
        Ok(Objects {
            input,
            out,
            notes,
            disk,
            second,
            clock,
            net,
        })
    }

    /// Does what the words say, and gives the exit status.
    pub fn run(&mut self, alloc: Global, words: &[String]) -> u8 {
        run(
            alloc,
            words,
            &mut self.input,
            &mut self.out,
            &mut self.notes,
            &mut self.disk,
            &mut self.second,
            &mut self.clock,
            &mut self.net,
        )
    }
}

/// Adds a line for each line of a text, each under a key.
fn add_lines(found: &mut String, key: &str, bytes: &[u8]) -> Result<(), AllocError> {
    let text = std::str::from_utf8(bytes).unwrap_or("no UTF-8");
    for line in text.lines() {
        found.push_str(key)?;
        found.push_str(line)?;
        found.push_str("\n")?;
    }
    Ok(())
}

/// Says where the output ends within a line.
fn add_cut(found: &mut String, bytes: &[u8]) -> Result<(), AllocError> {
    if !bytes.is_empty() && !bytes.ends_with(b"\n") {
        found.push_str("cut short\n")?;
    }
    Ok(())
}

fn add_status(alloc: Global, found: &mut String, status: u8) -> Result<(), AllocError> {
    if status == 0 {
        return Ok(());
    }
    let line = format!(in alloc; "status {status}\n")?;
    found.push_str(line.as_str())
}

/// The objects after `check` over a journal of these bytes.
fn checked(alloc: Global, disk: &[u8]) -> Result<Objects, AllocError> {
    let given = Run::new(alloc, "check")?;
    let disks = Disks::of_first(alloc, disk)?;
    let mut objects = Objects::new(alloc, &given, &disks, 1)?;
    let _status = objects.run(alloc, &given.words);
    Ok(objects)
}

/// Adds what `check` says of a journal of these bytes.
pub fn add_kept(alloc: Global, found: &mut String, disk: &[u8]) -> Result<(), AllocError> {
    let objects = checked(alloc, disk)?;
    add_lines(found, "kept ", objects.out.written())?;
    add_lines(found, "kept ", objects.notes.written())
}

/// Adds the bytes of a disk in hex, under a key.
fn add_bytes(alloc: Global, found: &mut String, key: &str, bytes: &[u8]) -> Result<(), AllocError> {
    let text = hex::encode(alloc, bytes)?;
    found.push_str(key)?;
    if !text.is_empty() {
        found.push_str(" ")?;
    }
    found.push_str(text.as_str())?;
    found.push_str("\n")
}

/// The lines that a run came to, in the order in which a document has them.
fn lines_of(
    alloc: Global,
    given: &Run,
    objects: &Objects,
    status: u8,
) -> Result<String, AllocError> {
    let mut found = String::new(alloc);
    add_lines(&mut found, "< ", objects.out.written())?;
    add_cut(&mut found, objects.out.written())?;
    add_responses(&mut found, objects.net.given_back())?;
    add_lines(&mut found, "note ", objects.notes.written())?;
    add_status(alloc, &mut found, status)?;
    if given.shows_kept {
        add_kept(alloc, &mut found, objects.disk.bytes())?;
    }
    if given.shows_journal {
        add_bytes(alloc, &mut found, "journal", objects.disk.bytes())?;
    }
    if given.shows_second {
        add_bytes(alloc, &mut found, "second", objects.second.bytes())?;
    }
    Ok(found)
}

/// Does a run over disks with these bytes, with so many bytes of input in a read at most.
pub fn play(
    alloc: Global,
    given: &Run,
    disks: &Disks,
    piece: usize,
) -> Result<Outcome, AllocError> {
    let mut objects = Objects::new(alloc, given, disks, piece)?;
    let status = objects.run(alloc, &given.words);
    let lines = lines_of(alloc, given, &objects, status)?;
    let disks = Disks::of(alloc, objects.disk.bytes(), objects.second.bytes())?;
    Ok(Outcome { lines, disks })
}
