// A turn of an open connection.
ghost use Rattle.std.specs.Prelude.{◌≡◌, ◌≤◌, ◌<◌, None, false, length, if◌then◌else◌, is_err};
ghost use Rattle.std.specs.Prelude.{IfOk, IfSome};
ghost use Rattle.reg_outside.specs.Faults.{HasCause, HasWriteCause, Rose};
ghost use Rattle.reg_outside.specs.Memory.{one_more};
ghost use Rattle.reg_outside.specs.Streams.{Reads, Writes, is_write_fault};
ghost use Rattle.reg_tcp.specs.Steps.{is_kept};

use crate::link::Link;
use reg_outside::{Connection, Failed, Sink, Source, Stamp};
use std::marker::Model;

/// How many pieces are read of the socket in one turn.
const PIECES: u32 = 16;

/// Where a connection belongs at its port: its slot, and the number of its turn.
#[derive(Clone, Copy, Drop)]
pub(crate) struct Place {
    pub(crate) slot: usize,
    pub(crate) turn: u64,
}

/// What becomes of a connection whose turn is over.
#[derive(Drop)]
pub(crate) enum After {
    /// It stays open.
    Kept(Link),
    /// It is closed once all that was written is sent.
    Ending(Link),
    /// It is closed.
    Closed,
}

/// A turn of a connection over TCP: what its peer has sent, and room for what is answered. A read
/// gives 0 at the end of the bytes, and where none has come for now. What the peer doesn't take of
/// the answers at once is sent later. Contracts see how often a call has failed.
#[derive(Drop)]
pub struct TcpConn {
    link: Link,
    place: Place,
    pieces: u32,
    is_quiet: bool,
    has_written: bool,
    faults: u64,
}

impl Model for TcpConn {
    ghost use Rattle.std.specs.Prelude.{ℕ};

    ghost Value = { ℕ };

    ghost view = { λ c. c.faults };
}

impl TcpConn {
    /// A turn in which no call has failed.
    pub(crate) fn begin(link: Link, place: Place) -> TcpConn
        ensures { result ≡ 0 }
    {
        TcpConn {
            link,
            place,
            pieces: PIECES,
            is_quiet: false,
            has_written: false,
            faults: 0,
        }
    }

    /// Where it belongs.
    pub(crate) fn place(&self) -> Place {
        self.place
    }

    /// The turn is over. Where it ended since nothing had come for now, and no call failed, the
    /// connection stays open, with what was read of it and is no whole message. Else it is over.
    pub(crate) fn end(self, unfinished: &[u8]) -> After
        ensures { 0 < self → result ≡ After.Closed }
    {
        if self.faults > 0 || !self.is_quiet {
            return self.close();
        }
        let TcpConn {
            mut link,
            place: _,
            pieces: _,
            is_quiet: _,
            has_written,
            faults: _,
        } = self;
        match link.keep(unfinished, has_written) {
            Ok(()) => After::Kept(link),
            Err(Failed) => After::Closed,
        }
    }

    /// The connection is over: it is closed once all that was written is sent, or at once where a
    /// call failed.
    pub(crate) fn close(self) -> After
        ensures failed { 0 < self → result ≡ After.Closed }
        ensures over { is_kept result ≡ false }
    {
        let TcpConn {
            link,
            place: _,
            pieces: _,
            is_quiet: _,
            has_written: _,
            faults,
        } = self;
        if faults == 0 && link.has_unsent() {
            After::Ending(link)
        } else {
            After::Closed
        }
    }

    /// Counts a fault.
    fn fault(&mut self) -> Failed
        ensures counted { self.new ≡ one_more self.old }
        ensures later { self.old ≤ self.new }
        ensures rose { Rose self.old self.new }
    {
        self.faults = self.faults.saturating_add(1);
        Failed
    }

    /// One read of the socket. None where nothing has come for now, or the turn has read enough.
    fn read_socket(&mut self, buf: &mut [u8]) -> Result<Option<usize>, Failed>
        ensures count { IfOk result (λ found. IfSome found (λ count. count ≤ length buf.new)) }
        ensures same { self.new ≡ self.old }
    {
        if self.pieces == 0 || !self.link.is_readable() {
            return Ok(None);
        }
        self.pieces -= 1;
        self.link.read(buf)
    }
}

impl Source for TcpConn {
    ghost left = { λ _. None };

    ghost read_faults = { λ s. s };

    /// One read: first of what the turn began with, then of the socket. It gives 0 at the end of
    /// the bytes, and where none has come for now, the turn has read enough or something is unsent.
    /// `Failed` comes where the socket fails. Each such read is counted.
    fn read(&mut self, buf: &mut [u8]) -> Result<usize, Failed>
        ensures bytes { Reads None None result buf.new }
        ensures cause { HasCause self.old self.new result }
        ensures counted { self.new ≡ (if is_err result then one_more self.old else self.old) }
    {
        let count = self.link.read_front(buf);
        if count > 0 || buf.is_empty() {
            return Ok(count);
        }
        match self.read_socket(buf) {
            Ok(Some(count)) => Ok(count),
            Ok(None) => {
                self.is_quiet = true;
                Ok(0)
            }
            Err(Failed) => Err(self.fault()),
        }
    }
}

impl Sink for TcpConn {
    ghost written = { λ _. None };

    ghost flushed = { λ _. None };

    ghost write_faults = { λ s. s };

    ghost marks = { λ _. None };

    /// One write. What the peer doesn't take at once waits, and is sent later. `Failed` comes where
    /// the socket fails, where more than 64 MiB wait already, and where there is no memory. Each
    /// such write is counted, and each that takes none of a piece that isn't empty.
    fn write(&mut self, bytes: &[u8]) -> Result<usize, Failed>
        ensures bytes { Writes None None result bytes.now }
        ensures none { IfOk result (λ n. n ≡ 0 → 0 < length bytes.now → Rose self.old self.new) }
        ensures cause { HasWriteCause self.old self.new result bytes.now }
        ensures counted { self.new
            ≡ (if is_write_fault result bytes.now then one_more self.old else self.old) }
    {
        self.has_written = true;
        match self.link.write(bytes) {
            Ok(count) => {
                if count == 0 && !bytes.is_empty() {
                    self.faults = self.faults.saturating_add(1);
                }
                Ok(count)
            }
            Err(Failed) => Err(self.fault()),
        }
    }

    /// Does nothing: what was written is sent, or waits until the peer takes it. Never `Failed`.
    fn flush(&mut self) -> Result<(), Failed>
        ensures cause { HasCause self.old self.new result }
        ensures counted { self.new ≡ (if is_err result then one_more self.old else self.old) }
    {
        Ok(())
    }

    /// Does nothing.
    fn mark(&mut self, _stamp: &Stamp)
        ensures same { self.new ≡ self.old }
    {}
}

impl Connection for TcpConn {
    fn receive(&mut self, buf: &mut [u8]) -> Result<usize, Failed> {
        self.read(buf)
    }

    fn send(&mut self, bytes: &[u8]) -> Result<usize, Failed> {
        self.write(bytes)
    }

    fn note(&mut self, stamp: &Stamp) {
        self.mark(stamp)
    }
}
