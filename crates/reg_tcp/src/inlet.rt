// Where connections come in, and where the system tells of them.
ghost use Rattle.std.specs.Prelude.{◌≡◌, IfOk};

use crate::conn::TcpConn;
use crate::slots::Slots;
use mio::net::{TcpListener, TcpStream};
use mio::{Events, Interest, Poll, Token};
use reg_outside::Failed;
use std::alloc::Global;
use std::io;
use std::io::ErrorKind;
use std::net::{Net, SocketAddr};
use std::time::Duration;

/// How many events are asked for at a time.
const EVENTS: usize = 256;

/// How many new connections are taken in between two turns.
const NEW_AT_ONCE: u32 = 64;

/// The listener's token, which is no slot's.
const LISTENER: usize = usize::MAX;

/// A listener, and the events of its socket and of those of all open connections.
#[derive(Drop)]
pub(crate) struct Inlet {
    listener: TcpListener,
    poll: Poll,
    events: Events,
    /// Whether the listener may have new connections.
    may_have_new: bool,
}

impl Inlet {
    /// Listens on an address.
    pub(crate) fn open(rt: &impl Net, alloc: Global, address: SocketAddr) -> io::Result<Inlet> {
        let mut listener = TcpListener::bind(rt, address)?;
        let poll = Poll::new(rt)?;
        poll.registry()
            .register(&mut listener, Token(LISTENER), Interest::READABLE)?;
        Ok(Inlet {
            listener,
            poll,
            events: Events::with_capacity(alloc, EVENTS)?,
            may_have_new: false,
        })
    }

    /// The address that it listens on.
    pub(crate) fn local_addr(&self) -> io::Result<SocketAddr> {
        self.listener.local_addr()
    }

    /// Waits for the next turn of a connection, in which no call has failed yet. `Failed` where the
    /// listener fails, or the system tells no events.
    pub(crate) fn next(&mut self, slots: &mut Slots) -> Result<TcpConn, Failed>
        ensures { IfOk result (λ conn. conn ≡ 0) }
    {
        // Each round asks the system for events, so 2^64 of them outlast any machine: the end is
        // there for the proof.
        for _ in 0..u64::MAX {
            self.take_new(slots)?;
            if let Some(conn) = slots.next_turn() {
                return Ok(conn);
            }
            self.wait(slots)?;
        }
        Err(Failed)
    }

    /// Takes in the new connections, up to so many. Those for which there is no room wait in the
    /// system's queue.
    fn take_new(&mut self, slots: &mut Slots) -> Result<(), Failed> {
        for _ in 0..NEW_AT_ONCE {
            if !self.may_have_new || !slots.has_room() {
                return Ok(());
            }
            self.take_one(slots)?;
        }
        Ok(())
    }

    /// Takes in a new connection, if there is one.
    fn take_one(&mut self, slots: &mut Slots) -> Result<(), Failed> {
        match self.listener.accept() {
            Ok((stream, _)) => {
                self.add(stream, slots);
                Ok(())
            }
            Err(error) => match error.kind() {
                ErrorKind::WouldBlock => {
                    self.may_have_new = false;
                    Ok(())
                }
                // a peer that has gone, or a signal: the next one may be there
                ErrorKind::ConnectionAborted | ErrorKind::Interrupted => Ok(()),
                _ => Err(Failed),
            },
        }
    }

    /// Adds a new connection. It is closed where there is no room for it. Its answers are sent at
    /// once, and not gathered.
    fn add(&self, mut stream: TcpStream, slots: &mut Slots) {
        // where this fails, answers come later, and no call does
        let _ = stream.set_nodelay(true);
        if !slots.make_room() {
            return;
        }
        let both = Interest::READABLE | Interest::WRITABLE;
        let registered = self
            .poll
            .registry()
            .register(&mut stream, slots.next_token(), both);
        if registered.is_ok() {
            slots.add(stream);
        }
    }

    /// Asks for events, and begins a round. It waits for one where nothing else is to be done.
    fn wait(&mut self, slots: &mut Slots) -> Result<(), Failed> {
        let timeout = if self.may_have_new || slots.has_waiting() {
            Some(Duration::ZERO)
        } else {
            None
        };
        if self.poll.poll(&mut self.events, timeout).is_err() {
            return Err(Failed);
        }
        for event in &self.events {
            let Token(token) = event.token();
            if token == LISTENER {
                self.may_have_new = true;
            } else {
                slots.note(event);
            }
        }
        slots.begin_round();
        Ok(())
    }
}
