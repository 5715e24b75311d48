// What the system tells of a socket.
ghost use Rattle.std.specs.Prelude.{◌≡◌, ◌||◌, false, true, ◌<◌, ◌≤◌};
ghost use Rattle.mio.specs.Event as spec;

use mio::event::Event;

/// What was told of a socket, and no read has taken back.
#[derive(Clone, Copy, Drop)]
pub(crate) struct News {
    /// There may be something to read: bytes, their end or an error.
    pub(crate) is_readable: bool,
    /// The peer sends no more than what is there. This stays so.
    pub(crate) is_ended: bool,
}

impl News {
    /// Nothing was told.
    pub(crate) fn none() -> News
        ensures { result ≡ record { is_readable = false; is_ended = false } }
    {
        News {
            is_readable: false,
            is_ended: false,
        }
    }

    /// What an event tells.
    pub(crate) fn of(event: &Event) -> News
        ensures { result ≡ record {
          is_readable = spec.is_readable event.now
              || spec.is_read_closed event.now
              || spec.is_error event.now;
          is_ended = spec.is_read_closed event.now || spec.is_error event.now;
        } }
    {
        let is_ended = event.is_read_closed() || event.is_error();
        News {
            is_readable: event.is_readable() || is_ended,
            is_ended,
        }
    }

    /// Both together.
    pub(crate) fn with(self, other: News) -> News
        ensures { result ≡ record {
          is_readable = self.is_readable || other.is_readable;
          is_ended = self.is_ended || other.is_ended;
        } }
    {
        News {
            is_readable: self.is_readable || other.is_readable,
            is_ended: self.is_ended || other.is_ended,
        }
    }

    /// What is known after a read that gave so many bytes, where so many were asked for. One that
    /// gives fewer leaves none, as epoll(7) says, and more that come are told anew. The end isn't,
    /// where it was told with the bytes.
    pub(crate) fn after_read(self, asked: usize, given: usize) -> News
        ensures ended { result.is_ended ≡ self.is_ended }
        ensures fewer { given < asked → result.is_readable ≡ self.is_ended }
        ensures all { asked ≤ given → result.is_readable ≡ true }
    {
        News {
            is_readable: given >= asked || self.is_ended,
            is_ended: self.is_ended,
        }
    }
}
