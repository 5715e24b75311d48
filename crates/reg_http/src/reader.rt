//! A reader of the messages of a connection.

ghost use Rattle.std.specs.Prelude.{◌≡◌, IfOk, OnOk, OnErr};
ghost use Rattle.reg_http.specs.Holding.{HoldsFew};
ghost use Rattle.reg_http.specs.Turns.{start, fed, GivesTurn};

use crate::call::{HeadFault, Turn};
use crate::held::{Held, Look};
use httparse::spans::HeaderSpan;
use std::alloc::{AllocError, Global};
use std::marker::Model;

/// Cuts the bytes of a connection into messages. A head is read once, also where its body comes in
/// many pieces, and a message is taken out at the cost of its own length.
#[derive(Drop)]
pub struct HttpReader {
    alloc: Global,
    held: Held,
    fault: Option<HeadFault>,
    /// Places for the fields of a head. They are made with the first one, and used again.
    places: Vec<HeaderSpan>,
}

impl Model for HttpReader {
    ghost use Rattle.reg_http.specs.Holding.{HoldsFew};
    ghost use Rattle.reg_http.specs.Turns.{Reading};

    ghost Value = { Reading };

    ghost view = { λ r. record { rest = r.held.rest; held = r.held.held; fault = r.fault } };

    ghost invariant = { λ r. HoldsFew r.held.held r.held.rest };
}

impl HttpReader {
    /// A reader that was fed nothing.
    pub fn new(alloc: Global) -> Result<HttpReader, AllocError>
        ensures { IfOk result (λ reader. reader ≡ start) }
    {
        Ok(HttpReader {
            alloc,
            held: Held::new(alloc),
            fault: None,
            places: Vec::new(alloc),
        })
    }

    /// More bytes have come. Where there is no memory for them, none was taken. At most as many
    /// bytes that were given are held as others.
    pub fn feed(&mut self, piece: &[u8]) -> Result<(), AllocError>
        ensures fed { OnOk result (self.new ≡ fed self.old piece.now) }
        ensures kept { OnErr result (self.new ≡ self.old) }
        ensures few { HoldsFew self.new.held self.new.rest }
    {
        self.held.feed(piece)
    }

    /// Forgets all that was fed. What memory it has is used again.
    pub fn restart(&mut self)
        ensures { self.new ≡ start }
    {
        self.held.restart();
        self.fault = None;
    }

    /// The bytes that were fed and aren't given yet.
    pub fn unfinished(&self) -> &[u8]
        ensures { result.now ≡ self.now.rest }
    {
        self.held.rest()
    }

    /// What comes next in the bytes that were fed. After a fault it is that fault for good. Where
    /// there is no memory, nothing was given. At most as many bytes that were given are held as
    /// others.
    pub fn next(&mut self) -> Result<Turn, AllocError>
        ensures turn { IfOk result (λ turn. GivesTurn self.old turn self.new) }
        ensures kept { OnErr result (self.new ≡ self.old) }
        ensures few { HoldsFew self.new.held self.new.rest }
    {
        if let Some(fault) = self.fault {
            return Ok(Turn::Bad(fault));
        }
        match self.held.find_head(self.alloc, &mut self.places)? {
            Look::Found => match self.held.take(self.alloc)? {
                Some(call) => Ok(Turn::Call(call)),
                None => Ok(Turn::NeedMore),
            },
            Look::NeedMore => Ok(Turn::NeedMore),
            Look::Bad(fault) => {
                self.fault = Some(fault);
                // a head that had more fields than are taken may have needed many
                self.places = Vec::new(self.alloc);
                Ok(Turn::Bad(fault))
            }
        }
    }
}
