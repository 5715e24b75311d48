//! The bytes of a connection that aren't given yet, and the head at their front.

ghost use Rattle.std.specs.Prelude.{◌≡◌, ◌≤◌, ◌+◌, ◌++◌, [], None, Ok, length, drop, IsSome, IfOk};
ghost use Rattle.std.specs.Prelude.{OnOk, OnErr};
ghost use Rattle.reg_http.specs.declared.held.Look.TheVariants.{Found};
ghost use Rattle.reg_http.specs.Fronts.{IsHeadAt, IsBody, call_read};
ghost use Rattle.reg_http.specs.Holding.{IsLook, IsTake};

use crate::call::{Call, HeadFault};
use crate::head::{Front, Head, read_front};
use httparse::spans::HeaderSpan;
use reg_base::Bytes;
use std::alloc::{AllocError, Global};
use std::marker::Model;

/// How many bytes a buffer may have had that is used again.
const KEPT_ROOM: usize = 16_384;

/// The bytes that were fed and aren't given, and the head at their front once it was found.
#[derive(Drop)]
pub(crate) struct Held {
    bytes: Vec<u8>,
    /// Where the bytes begin that aren't given yet.
    start: usize,
    /// The head at the front of these, once it was found.
    head: Option<Head>,
}

impl Model for Held {
    ghost use Rattle.std.specs.Prelude.{length, drop};
    ghost use Rattle.reg_http.specs.Holding.{Holding, IsHeld};

    ghost Value = { Holding };

    ghost view = { λ h. record {
      rest = drop h.start h.bytes.items;
      held = length h.bytes.items;
      head = h.head;
    } };

    ghost invariant = { λ h. IsHeld h.bytes.items h.start h.head };
}

/// What is known of the front of the bytes.
#[derive(Drop)]
pub(crate) enum Look {
    /// A head.
    Found,
    /// Neither a head nor a fault.
    NeedMore,
    Bad(HeadFault),
}

/// The body after this head, if it is whole.
fn body_after(alloc: Global, head: &Head, bytes: &[u8]) -> Result<Option<Bytes>, AllocError>
    requires { IsHeadAt bytes.now head.now }
    ensures { IfOk result (IsBody bytes.now head.now) }
{
    let (_, rest) = bytes.split_at(head.length);
    if rest.len() < head.body {
        return Ok(None);
    }
    let body = Bytes::of(alloc, &rest[..head.body])?;
    Ok(Some(body))
}

/// The message of this head and body.
fn call_of(head: Head, body: Bytes) -> Call
    ensures { result ≡ call_read head body }
{
    let Head {
        method,
        target,
        caller,
        close,
        ..
    } = head;
    Call {
        method,
        target,
        caller,
        body,
        close,
    }
}

/// Lets the bytes go that were given, so many in front, where they are more than the others. It
/// says where the others begin then. Where there are no others, a small buffer is used again.
fn let_go(alloc: Global, bytes: &mut Vec<u8>, given: usize) -> Result<usize, AllocError>
    requires { given ≤ length bytes.old.items }
    ensures rest { IfOk result (λ start. drop start bytes.new.items ≡ drop given bytes.old.items) }
    ensures few { IfOk result (λ start. start ≤ length (drop start bytes.new.items)) }
    ensures kept { OnErr result (bytes.new ≡ bytes.old) }
{
    if given <= bytes.len() - given {
        return Ok(given);
    }
    if given == bytes.len() && given <= KEPT_ROOM {
        bytes.clear();
        return Ok(0);
    }
    *bytes = bytes[given..].to_vec(alloc)?;
    Ok(0)
}

impl Held {
    /// Nothing.
    pub(crate) fn new(alloc: Global) -> Held
        ensures { result ≡ record { rest = []; held = 0; head = None } }
    {
        Held {
            bytes: Vec::new(alloc),
            start: 0,
            head: None,
        }
    }

    /// Nothing again. The memory stays.
    pub(crate) fn restart(&mut self)
        ensures { self.new ≡ record { rest = []; held = 0; head = None } }
    {
        self.bytes.clear();
        self.start = 0;
        self.head = None;
    }

    /// The bytes that aren't given yet.
    pub(crate) fn rest(&self) -> &[u8]
        ensures { result.now ≡ self.now.rest }
    {
        let (_, rest) = self.bytes.split_at(self.start);
        rest
    }

    /// More bytes. Where there is no memory for them, none was taken.
    pub(crate) fn feed(&mut self, piece: &[u8]) -> Result<(), AllocError>
        ensures fed { OnOk result (self.new ≡ record {
          rest = self.old.rest ++ piece.now;
          held = self.old.held + length piece.now;
          head = self.old.head;
        }) }
        ensures kept { OnErr result (self.new ≡ self.old) }
    {
        self.bytes.extend_from_slice(piece)
    }

    /// Looks for the head at the front. Where it was found before, nothing is read, so this takes
    /// no memory, and the places for fields are as they were.
    pub(crate) fn find_head(
        &mut self,
        alloc: Global,
        places: &mut Vec<HeaderSpan>,
    ) -> Result<Look, AllocError>
        ensures look { IfOk result (λ look. IsLook self.old.rest look self.new.head) }
        ensures again { IsSome self.old.head → result ≡ Ok Found }
        ensures known { IsSome self.old.head → self.new.head ≡ self.old.head }
        ensures unread { IsSome self.old.head → places.new ≡ places.old }
        ensures failed { OnErr result (self.new.head ≡ self.old.head) }
        ensures rest { self.new.rest ≡ self.old.rest }
        ensures held { self.new.held ≡ self.old.held }
    {
        if self.head.is_some() {
            return Ok(Look::Found);
        }
        let (_, rest) = self.bytes.split_at(self.start);
        match read_front(alloc, rest, places)? {
            Front::Head(head) => {
                self.head = Some(head);
                Ok(Look::Found)
            }
            Front::NeedMore => Ok(Look::NeedMore),
            Front::Bad(fault) => Ok(Look::Bad(fault)),
        }
    }

    /// Takes the message out whose head was found, or none while its body isn't whole. Bytes that
    /// were given are let go once they are more than the others, so this costs what is given.
    pub(crate) fn take(&mut self, alloc: Global) -> Result<Option<Call>, AllocError>
        requires { IsSome self.old.head }
        ensures taken { IfOk result (λ taken. IsTake self.old taken self.new) }
        ensures kept { OnErr result (self.new ≡ self.old) }
    {
        let Some(head) = &self.head else {
            unreachable!()
        };
        let (_, rest) = self.bytes.split_at(self.start);
        let Some(body) = body_after(alloc, head, rest)? else {
            return Ok(None);
        };
        let given = self.start + head.length + head.body;
        self.start = let_go(alloc, &mut self.bytes, given)?;
        match self.head.take() {
            Some(head) => Ok(Some(call_of(head, body))),
            None => unreachable!(),
        }
    }
}
