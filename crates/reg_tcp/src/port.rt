// A port that is listened on.
ghost use Rattle.std.specs.Prelude.{◌≡◌, ◌≤◌, Some, None, if◌then◌else◌, is_err, OnOk};
ghost use Rattle.std.specs.Prelude.{OnErr, IsOk, IfOk, IfSome, is_some, true, [], ◌∷◌};
ghost use Rattle.std.specs.Net.Addr.{ipv4_octets};
ghost use Rattle.std.specs.Net.Socket.{v4_ip, v4_port};
ghost use Rattle.reg_outside.specs.Faults.{HasCause, Rose};
ghost use Rattle.reg_outside.specs.Memory.{one_more};

use crate::conn::TcpConn;
use crate::inlet::Inlet;
use crate::slots::Slots;
use reg_base::Moment;
use reg_outside::{Accepted, Failed, Listener};
use std::alloc::Global;
use std::io::Eprint;
use std::marker::Model;
use std::net::{Ipv4Addr, Net, SocketAddr, SocketAddrV4};

/// Where a port is listened on: 127.0.0.1, and no other address.
fn address_of(port: u16) -> SocketAddrV4
    ensures octets { ipv4_octets (v4_ip result) ≡ 127 ∷ 0 ∷ 0 ∷ 1 ∷ [] }
    ensures port { v4_port result ≡ port }
{
    SocketAddrV4::new(Ipv4Addr::LOCALHOST, port)
}

/// A port of 127.0.0.1, and the connections that are open. Contracts see the port that it listens
/// on, and how often a call has failed.
#[derive(Drop)]
pub struct TcpPort<'a, R> {
    rt: &'a R,
    alloc: Global,
    port: Option<u16>,
    inlet: Option<Inlet>,
    slots: Slots,
    faults: u64,
}

impl<'a, R> Model for TcpPort<'a, R> {
    ghost use Rattle.reg_tcp.specs.Port.{PortState};

    ghost Value = { PortState };

    ghost view = { λ p. record { port = p.port; faults = p.faults } };
}

impl<'a, R: Net> TcpPort<'a, R> {
    /// It listens on no port yet.
    pub fn new(rt: &'a R, alloc: Global) -> TcpPort<'a, R>
        ensures { result ≡ record { port = None; faults = 0 } }
    {
        TcpPort {
            rt,
            alloc,
            port: None,
            inlet: None,
            slots: Slots::new(alloc),
            faults: 0,
        }
    }

    /// Counts a fault.
    fn fault(&mut self) -> Failed
        ensures counted { self.new ≡ record self.old { faults = one_more self.old.faults } }
        ensures later { self.old.faults ≤ self.new.faults }
        ensures rose { Rose self.old.faults self.new.faults }
    {
        self.faults = self.faults.saturating_add(1);
        Failed
    }
}

impl<R: Net + Eprint> Listener for TcpPort<'_, R> {
    type Conn = TcpConn;

    ghost listens = { λ p. p.port };

    ghost connections = { λ _. None };

    ghost listener_faults = { λ p. p.faults };

    /// Writes a line on standard error: `opened: N commands, MOMENT`.
    fn announce(&mut self, commands: usize, moment: Moment) {
        let text = moment.text();
        let text = str::from_utf8(&text).unwrap_or("");
        let _ = eprintln!(self.rt; "opened: {commands} commands, {text}");
    }

    /// Listens on the port of 127.0.0.1, and writes a line on standard error: `listening on
    /// 127.0.0.1:PORT`. For port 0 it has the port that the system chose. What was open is closed.
    /// `Failed` comes where listening fails. Each such call is counted.
    fn listen(&mut self, port: u16) -> Result<(), Failed>
        ensures port { OnOk result (self.new.port ≡ Some port) }
        ensures kept { OnErr result (self.new.port ≡ self.old.port) }
        ensures cause { HasCause self.old.faults self.new.faults result }
        ensures counted { self.new.faults
            ≡ (if is_err result then one_more self.old.faults else self.old.faults) }
    {
        match Inlet::open(self.rt, self.alloc, SocketAddr::V4(address_of(port))) {
            Ok(inlet) => {
                if let Ok(address) = inlet.local_addr() {
                    let _ = eprintln!(self.rt; "listening on {address}");
                }
                self.slots.clear();
                self.inlet = Some(inlet);
                self.port = Some(port);
                Ok(())
            }
            Err(_) => Err(self.fault()),
        }
    }

    /// Waits for the next connection that has something to read, and gives a turn of it, in which
    /// no call has failed yet. Its number is its slot, which another may have once it is closed.
    /// `Failed` comes where the listener fails, or the system tells of no connection. Each such
    /// call is counted.
    fn accept(&mut self) -> Result<Option<Accepted<TcpConn>>, Failed>
        requires { is_some self.old.port ≡ true }
        ensures port { self.new.port ≡ self.old.port }
        ensures cause { HasCause self.old.faults self.new.faults result }
        ensures fresh { IfOk result
            (λ found. IfSome found (λ accepted. accepted.conn ≡ 0)) }
        ensures counted { self.new.faults
            ≡ (if is_err result then one_more self.old.faults else self.old.faults) }
    {
        let Some(inlet) = &mut self.inlet else {
            return Err(self.fault());
        };
        match inlet.next(&mut self.slots) {
            Ok(conn) => {
                let number = conn.place().slot;
                Ok(Some(Accepted { number, conn }))
            }
            Err(_) => Err(self.fault()),
        }
    }

    /// Keeps the connection open where nothing had come of it for now, and gives it out again once
    /// it has something to read, which the unfinished bytes are before. It closes the connection
    /// where a call failed, the bytes have ended or the turn did before them: at once, or when all
    /// that was written is sent. Never `Failed`.
    fn give_back(&mut self, accepted: Accepted<TcpConn>, unfinished: &[u8]) -> Result<(), Failed>
        ensures ok { IsOk result }
        ensures same { self.new ≡ self.old }
        ensures port { self.new.port ≡ self.old.port }
        ensures cause { HasCause self.old.faults self.new.faults result }
    {
        let Accepted { number: _, conn } = accepted;
        self.slots.take_back(conn.place(), conn.end(unfinished));
        Ok(())
    }

    /// Closes the connection once all that was written is sent, or at once where a call failed. It
    /// is never kept. Never `Failed`.
    fn close(&mut self, accepted: Accepted<TcpConn>) -> Result<(), Failed>
        ensures ok { IsOk result }
        ensures same { self.new ≡ self.old }
        ensures port { self.new.port ≡ self.old.port }
        ensures cause { HasCause self.old.faults self.new.faults result }
    {
        let Accepted { number: _, conn } = accepted;
        self.slots.take_back(conn.place(), conn.close());
        Ok(())
    }
}
