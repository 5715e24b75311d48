// Bytes that wait to be read or sent.
ghost use Rattle.std.specs.Prelude.{◌≡◌, ◌==◌, ◌++◌, ◌≤◌, ℕ, List, [], length, min, take, drop};
ghost use Rattle.std.specs.Prelude.{vec_len, OnOk, OnErr};

use std::alloc::{AllocError, Global};
use std::marker::Model;

/// Bytes that wait, in order. Contracts see those that aren't done with.
#[derive(Drop)]
pub(crate) struct Pending {
    alloc: Global,
    bytes: Vec<u8>,
    done: usize,
}

impl Model for Pending {
    ghost use Rattle.std.specs.Prelude.{ℕ, List, ◌≤◌, drop, vec_len};

    ghost Value = { List ℕ };

    ghost view = { λ p. drop p.done p.bytes.items };

    ghost invariant = { λ p. p.done ≤ vec_len p.bytes };
}

impl Pending {
    /// None wait yet.
    pub(crate) fn new(alloc: Global) -> Pending
        ensures { result ≡ [] }
    {
        Pending {
            alloc,
            bytes: Vec::new(alloc),
            done: 0,
        }
    }

    /// How many wait.
    pub(crate) fn len(&self) -> usize
        ensures { result ≡ length self.now }
    {
        self.bytes.len() - self.done
    }

    /// Whether none wait.
    pub(crate) fn is_empty(&self) -> bool
        ensures { result ≡ (length self.now == 0) }
    {
        self.len() == 0
    }

    /// Those that wait.
    pub(crate) fn rest(&self) -> &[u8]
        ensures { result.now ≡ self.now }
    {
        let (_, rest) = self.bytes.split_at(self.done);
        rest
    }

    /// So many at the front are done with. The memory is given back once none wait.
    pub(crate) fn pass(&mut self, count: usize)
        requires { count ≤ length self.old }
        ensures { self.new ≡ drop count self.old }
    {
        if count < self.len() {
            self.done += count;
        } else {
            self.bytes = Vec::new(self.alloc);
            self.done = 0;
        }
    }

    /// More wait, behind the others. Where there is no memory, none was added.
    pub(crate) fn add(&mut self, more: &[u8]) -> Result<(), AllocError>
        ensures added { OnOk result (self.new ≡ self.old ++ more.now) }
        ensures same { OnErr result (self.new ≡ self.old) }
    {
        self.bytes.extend_from_slice(more)
    }

    /// Moves the first into a buffer, as many as fit, and says how many.
    pub(crate) fn give(&mut self, buf: &mut [u8]) -> usize
        ensures count { result ≡ min (length self.old) (length buf.old) }
        ensures given { take result buf.new ≡ take result self.old }
        ensures rest { self.new ≡ drop result self.old }
        ensures room { length buf.new ≡ length buf.old }
    {
        let rest = self.rest();
        let count = rest.len().min(buf.len());
        buf[..count].copy_from_slice(&rest[..count]);
        self.pass(count);
        count
    }
}
