// What a port keeps of a connection.
ghost use Rattle.std.specs.Prelude.{◌≡◌, ◌&&◌, not, Some, None, true, false, is_some};
ghost use Rattle.reg_tcp.specs.Steps.{is_queue};

use crate::link::Link;
use crate::news::News;

/// A connection's slot at its port. The link is absent while the connection is in a turn.
#[derive(Drop)]
pub(crate) struct Slot {
    pub(crate) link: Option<Link>,
    /// What was told of its socket, and the link hasn't heard.
    pub(crate) news: News,
    /// The number of its last turn, or of the last one before it was opened.
    pub(crate) turn: u64,
    /// Whether it stands in the queue.
    pub(crate) is_queued: bool,
    /// Whether it is closed once all is sent.
    pub(crate) is_ending: bool,
}

/// What is to be done with a slot.
#[derive(Clone, Copy, Drop)]
pub(crate) enum Step {
    /// Nothing, until an event comes or the turn is over.
    Wait,
    /// It has something to read: it goes into the queue.
    Queue,
    /// It is over: it is closed.
    Close,
}

impl Slot {
    /// A new connection's.
    pub(crate) fn new(link: Link, turn: u64) -> Slot
        ensures link { result.link ≡ Some link }
        ensures turn { result.turn ≡ turn }
        ensures queued { result.is_queued ≡ false }
        ensures ending { result.is_ending ≡ false }
    {
        Slot {
            link: Some(link),
            news: News::none(),
            turn,
            is_queued: false,
            is_ending: false,
        }
    }

    /// Sends what is unsent, and says what is to be done. Until all is sent it isn't served, and
    /// what stands in the queue doesn't go there again.
    pub(crate) fn settle(&mut self) -> Step
        ensures out { self.old.link ≡ None → self.new ≡ self.old }
        ensures once { self.old.is_queued ≡ true → is_queue result ≡ false }
        ensures queued { is_queue result ≡ true → self.new.is_queued ≡ true }
        ensures ending { self.old.is_ending ≡ true → is_queue result ≡ false }
    {
        let Some(link) = &mut self.link else {
            return Step::Wait;
        };
        if link.flush().is_err() {
            return Step::Close;
        }
        if link.has_unsent() {
            return Step::Wait;
        }
        if self.is_ending {
            return Step::Close;
        }
        link.hear(self.news);
        self.news = News::none();
        if self.is_queued || !link.is_readable() {
            return Step::Wait;
        }
        self.is_queued = true;
        Step::Queue
    }

    /// Whether it may be closed to make room: it is in no turn, and has nothing to read.
    pub(crate) fn is_silent(&self) -> bool
        ensures { result ≡ (is_some self.now.link && not self.now.is_queued) }
    {
        self.link.is_some() && !self.is_queued
    }
}
