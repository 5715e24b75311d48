// An open connection to a peer.
ghost use Rattle.std.specs.Prelude.{◌≡◌, ◌==◌, ◌≤◌, ◌<◌, ◌+◌, ◌&&◌, ◌||◌, not, true, false, ℕ, min};
ghost use Rattle.std.specs.Prelude.{List, [], ◌++◌, length, take, drop, IfOk, OnOk, OnErr, IfSome};

use crate::news::News;
use crate::pending::Pending;
use mio::net::TcpStream;
use reg_outside::Failed;
use std::alloc::{AllocError, Global};
use std::io::{ErrorKind, Read, Write};

/// How many bytes are read before a turn.
const PIECE: usize = 4096;

/// With so many bytes unsent no more are written: 64 MiB.
const MOST_UNSENT: usize = 1 << 26;

/// So many turns may bring no whole message.
const MOST_TURNS: u32 = 1000;

/// An open connection: its socket, what is to be read before the socket's bytes, what the peer
/// hasn't taken, and what is known of the socket.
#[derive(Drop)]
pub(crate) struct Link {
    stream: TcpStream,
    front: Pending,
    unsent: Pending,
    news: News,
    turns: u32,
}

impl Link {
    /// A new connection, of which nothing is known.
    pub(crate) fn new(alloc: Global, stream: TcpStream) -> Link
        ensures front { result.front ≡ [] }
        ensures unsent { result.unsent ≡ [] }
        ensures news { result.news ≡ record { is_readable = false; is_ended = false } }
        ensures turns { result.turns ≡ 0 }
    {
        Link {
            stream,
            front: Pending::new(alloc),
            unsent: Pending::new(alloc),
            news: News::none(),
            turns: 0,
        }
    }

    /// Learns what was told of the socket.
    pub(crate) fn hear(&mut self, news: News)
        ensures { self.new ≡ record self.old {
          news = record {
            is_readable = self.old.news.is_readable || news.is_readable;
            is_ended = self.old.news.is_ended || news.is_ended;
          };
        } }
    {
        self.news = self.news.with(news);
    }

    /// Whether the socket may have something to read. While something is unsent it isn't read, so
    /// that a peer which takes no answers gets no more of them.
    pub(crate) fn is_readable(&self) -> bool
        ensures { result ≡ (self.now.news.is_readable && (length self.now.unsent == 0)) }
    {
        self.news.is_readable && !self.has_unsent()
    }

    /// Whether the peer hasn't taken all that was written.
    pub(crate) fn has_unsent(&self) -> bool
        ensures { result ≡ not (length self.now.unsent == 0) }
    {
        !self.unsent.is_empty()
    }

    /// Reads what stands before the socket's bytes, and says how many bytes.
    pub(crate) fn read_front(&mut self, buf: &mut [u8]) -> usize
        ensures count { result ≡ min (length self.old.front) (length buf.old) }
        ensures given { take result buf.new ≡ take result self.old.front }
        ensures rest { self.new ≡ record self.old { front = drop result self.old.front } }
        ensures room { length buf.new ≡ length buf.old }
    {
        self.front.give(buf)
    }

    /// One read of the socket, into a buffer that isn't empty. It gives how many bytes came, 0 at
    /// their end, and None where there are none for now. `Failed` where the socket fails.
    pub(crate) fn read(&mut self, buf: &mut [u8]) -> Result<Option<usize>, Failed>
        ensures count { IfOk result (λ found. IfSome found (λ count. count ≤ length buf.new)) }
        ensures rest { self.new ≡ record self.old { news = self.new.news } }
    {
        match self.stream.read(buf) {
            Ok(count) => {
                self.news = self.news.after_read(buf.len(), count);
                Ok(Some(count))
            }
            Err(error) if error.kind() == ErrorKind::WouldBlock => {
                self.news = News::none();
                Ok(None)
            }
            Err(_) => Err(Failed),
        }
    }

    /// Reads a first piece, to be read again in the turn that begins, and says whether there was
    /// one. `Failed` where none will come: at the end of the bytes, where the socket fails, and
    /// where there is no memory.
    pub(crate) fn read_first(&mut self) -> Result<bool, Failed>
        ensures front { IfOk result (λ came. came ≡ false → self.new.front ≡ self.old.front) }
        ensures unsent { self.new.unsent ≡ self.old.unsent }
        ensures turns { self.new.turns ≡ self.old.turns }
    {
        let mut piece = [0u8; PIECE];
        match self.read(&mut piece)? {
            None => Ok(false),
            Some(0) => Err(Failed),
            Some(count) => match self.front.add(&piece[..count]) {
                Ok(()) => Ok(true),
                Err(AllocError) => Err(Failed),
            },
        }
    }

    /// Writes to the socket, or to what is unsent where the peer takes nothing now, and says how
    /// many bytes were taken. `Failed` where the socket fails, where too much is unsent already,
    /// and where there is no memory; then none was taken.
    pub(crate) fn write(&mut self, bytes: &[u8]) -> Result<usize, Failed>
        ensures count { IfOk result (λ count. count ≤ length bytes.now) }
        ensures behind { 0 < length self.old.unsent
            → OnOk result (self.new.unsent ≡ self.old.unsent ++ bytes.now) }
        ensures rest { self.new ≡ record self.old { unsent = self.new.unsent } }
        ensures same { OnErr result (self.new ≡ self.old) }
    {
        if self.has_unsent() {
            return self.hold(bytes);
        }
        match self.stream.write(bytes) {
            Ok(count) => Ok(count),
            Err(error) if error.kind() == ErrorKind::WouldBlock => self.hold(bytes),
            Err(_) => Err(Failed),
        }
    }

    /// Puts the bytes behind what is unsent, and says how many they are.
    fn hold(&mut self, bytes: &[u8]) -> Result<usize, Failed>
        ensures count { IfOk result (λ count. count ≡ length bytes.now) }
        ensures added { OnOk result (self.new.unsent ≡ self.old.unsent ++ bytes.now) }
        ensures rest { self.new ≡ record self.old { unsent = self.new.unsent } }
        ensures same { OnErr result (self.new ≡ self.old) }
    {
        if self.unsent.len() > MOST_UNSENT {
            return Err(Failed);
        }
        match self.unsent.add(bytes) {
            Ok(()) => Ok(bytes.len()),
            Err(AllocError) => Err(Failed),
        }
    }

    /// Sends what is unsent, as much as the peer takes now. After a write that took less, an event
    /// tells that the peer takes more, as epoll(7) says. `Failed` where the socket fails.
    pub(crate) fn flush(&mut self) -> Result<(), Failed>
        ensures in_order { (n : ℕ) × (n ≤ length self.old.unsent)
            × (self.new ≡ record self.old { unsent = drop n self.old.unsent }) }
    {
        if !self.has_unsent() {
            return Ok(());
        }
        match self.stream.write(self.unsent.rest()) {
            Ok(count) => {
                self.unsent.pass(count);
                Ok(())
            }
            Err(error) if error.kind() == ErrorKind::WouldBlock => Ok(()),
            Err(_) => Err(Failed),
        }
    }

    /// Keeps what was read and is no whole message, for the next turn. `Failed` where there is no
    /// memory, and where too many turns have brought no whole message.
    pub(crate) fn keep(&mut self, unfinished: &[u8], has_answered: bool) -> Result<(), Failed>
        ensures front { OnOk result (self.new.front ≡ self.old.front ++ unfinished.now) }
        ensures answered { has_answered ≡ true → self.new.turns ≡ 0 }
        ensures none { unfinished.now ≡ [] → self.new.turns ≡ 0 }
        ensures unsent { self.new.unsent ≡ self.old.unsent }
    {
        self.turns = if has_answered || unfinished.is_empty() {
            0
        } else {
            self.turns.saturating_add(1)
        };
        if self.turns >= MOST_TURNS {
            return Err(Failed);
        }
        match self.front.add(unfinished) {
            Ok(()) => Ok(()),
            Err(AllocError) => Err(Failed),
        }
    }
}
