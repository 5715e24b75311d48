// The open connections of a port, and the queue of those that have something to read.
ghost use Rattle.std.specs.Prelude.{◌≡◌, ◌==◌, ◌≤◌, ◌<◌, ◌+◌, not, true, IfSome};
ghost use Rattle.std.specs.VecDeque.{deque_len};
ghost use Rattle.slab.specs.Slab.{slab_len};

use crate::conn::{After, Place, TcpConn};
use crate::link::Link;
use crate::news::News;
use crate::slot::{Slot, Step};
use mio::Token;
use mio::event::Event;
use mio::net::TcpStream;
use slab::Slab;
use std::alloc::Global;
use std::collections::VecDeque;

/// How many connections are open at most.
const MOST_OPEN: usize = 1000;

/// The slots of the open connections, under the tokens of their sockets. Those that have something
/// to read stand in the queue, each once. It is served in rounds, between which events are asked
/// for: so one that always has something to read keeps none of the others waiting.
#[derive(Drop)]
pub(crate) struct Slots {
    alloc: Global,
    slots: Slab<Slot>,
    queue: VecDeque<usize>,
    /// How many of the queue are of this round.
    round: usize,
    /// How many turns there were.
    turns: u64,
}

impl Slots {
    /// No connection is open.
    pub(crate) fn new(alloc: Global) -> Slots {
        Slots {
            alloc,
            slots: Slab::new(alloc),
            queue: VecDeque::new(alloc),
            round: 0,
            turns: 0,
        }
    }

    /// Closes all connections that are in no turn. Those that are in one are closed when they are
    /// given back.
    pub(crate) fn clear(&mut self)
        ensures none { slab_len self.new.slots ≡ 0 }
        ensures queue { deque_len self.new.queue ≡ 0 }
        ensures round { self.new.round ≡ 0 }
    {
        self.slots.clear();
        self.queue.clear();
        self.round = 0;
    }

    /// The token of the next connection that is added.
    pub(crate) fn next_token(&self) -> Token {
        Token(self.slots.vacant_key())
    }

    /// Adds a connection, whose socket is registered under the next token. Where there is no memory
    /// it is closed.
    pub(crate) fn add(&mut self, stream: TcpStream)
        ensures { slab_len self.new.slots ≤ slab_len self.old.slots + 1 }
    {
        let link = Link::new(self.alloc, stream);
        let _ = self.slots.insert(Slot::new(link, self.turns));
    }

    /// Makes room for one more connection: where as many as may be are open, it closes the one that
    /// was silent longest. Gives false where each is in a turn, or has something to read.
    pub(crate) fn make_room(&mut self) -> bool
        ensures { result ≡ true → slab_len self.new.slots < MOST_OPEN }
    {
        if self.slots.len() >= MOST_OPEN
            && let Some(key) = self.longest_silent()
        {
            self.close(key);
        }
        self.slots.len() < MOST_OPEN
    }

    /// Whether there is room for one more connection, or one is silent.
    pub(crate) fn has_room(&self) -> bool {
        self.slots.len() < MOST_OPEN || self.longest_silent().is_some()
    }

    /// The silent slot whose last turn is longest ago.
    fn longest_silent(&self) -> Option<usize> {
        let mut longest = None;
        let mut earliest = u64::MAX;
        for (key, slot) in self.slots.iter() {
            if slot.is_silent() && slot.turn < earliest {
                longest = Some(key);
                earliest = slot.turn;
            }
        }
        longest
    }

    /// Closes a connection that is in no turn.
    fn close(&mut self, key: usize) {
        let _ = self.slots.try_remove(key);
    }

    /// Takes up what an event tells of a connection.
    pub(crate) fn note(&mut self, event: &Event) {
        let Token(key) = event.token();
        if let Some(slot) = self.slots.get_mut(key) {
            slot.news = slot.news.with(News::of(event));
        }
        self.settle(key);
    }

    /// Does what is to be done with a slot.
    fn settle(&mut self, key: usize) {
        let Some(slot) = self.slots.get_mut(key) else {
            return;
        };
        match slot.settle() {
            Step::Wait => {}
            Step::Queue => {
                // where there is no memory for its place in the queue, it is closed
                if self.queue.push_back(key).is_err() {
                    self.close(key);
                }
            }
            Step::Close => self.close(key),
        }
    }

    /// Whether one stands in the queue.
    pub(crate) fn has_waiting(&self) -> bool
        ensures { result ≡ not (deque_len self.now.queue == 0) }
    {
        !self.queue.is_empty()
    }

    /// All that stand in the queue now are of the next round.
    pub(crate) fn begin_round(&mut self)
        ensures { self.new ≡ record self.old { round = deque_len self.old.queue } }
    {
        self.round = self.queue.len();
    }

    /// The next turn of this round, in which no call has failed yet.
    pub(crate) fn next_turn(&mut self) -> Option<TcpConn>
        ensures { IfSome result (λ conn. conn ≡ 0) }
    {
        for _ in 0..self.round {
            self.round = self.round.saturating_sub(1);
            let key = self.queue.pop_front()?;
            if let Some(conn) = self.begin(key) {
                return Some(conn);
            }
        }
        None
    }

    /// Begins a turn, where there is something to read. A connection whose bytes have ended, or
    /// whose socket fails, is closed.
    fn begin(&mut self, key: usize) -> Option<TcpConn>
        ensures { IfSome result (λ conn. conn ≡ 0) }
    {
        let slot = self.slots.get_mut(key)?;
        slot.is_queued = false;
        let mut link = slot.link.take()?;
        match link.read_first() {
            Ok(true) => {
                self.turns = self.turns.saturating_add(1);
                slot.turn = self.turns;
                let place = Place {
                    slot: key,
                    turn: self.turns,
                };
                Some(TcpConn::begin(link, place))
            }
            Ok(false) => {
                slot.link = Some(link);
                None
            }
            Err(_) => {
                self.close(key);
                None
            }
        }
    }

    /// Takes a connection back whose turn is over.
    pub(crate) fn take_back(&mut self, place: Place, after: After) {
        let Place { slot: key, turn } = place;
        let Some(slot) = self.slots.get_mut(key) else {
            return;
        };
        // a connection of a port that was listened on before
        if slot.turn != turn || slot.link.is_some() {
            return;
        }
        match after {
            After::Kept(link) => slot.link = Some(link),
            After::Ending(link) => {
                slot.link = Some(link);
                slot.is_ending = true;
            }
            After::Closed => return self.close(key),
        }
        self.settle(key);
    }
}
