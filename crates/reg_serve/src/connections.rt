// Connections, one after another.
ghost use Rattle.std.specs.Prelude.{◌≡◌, ◌≤◌, ℕ, List, Option, Some, option_map, is_some, is_ok};
ghost use Rattle.std.specs.Prelude.{true, false, if◌then◌else◌, IfOk, IfErr, IfSome, OnOk};
ghost use Rattle.reg_outside.specs.Connections.{HasOut, back_of, gives_back, seen};
ghost use Rattle.reg_outside.specs.Faults.{HasCause, Rose};
ghost use Rattle.reg_service.specs.Kept.{KeptOn};
ghost use Rattle.reg_serve.specs.KeepingUp.{BackKeepsUp, VisitsKeepUp};
ghost use Rattle.reg_serve.specs.Visits.{CeasesNext, CeasesServing, GivesBack, NoneComes, ServedSo};
ghost use Rattle.reg_serve.specs.Visits.{ServesVisits, ceased_of};

use crate::connection::serve_bytes;
use crate::ended::{Ceased, Ended};
use reg_http::{HttpReader, Routes};
use reg_keep::Keeper;
use reg_outside::{Accepted, Clock, Failed, Listener, Sink, Source};
use reg_service::{Cause, Next, Service};
use std::alloc::Global;

/// A service's cause as serving's.
fn ceased_of(cause: Cause) -> Ceased
    ensures { result ≡ ceased_of cause }
{
    match cause {
        Cause::Memory => Ceased::Memory,
        Cause::Disk => Ceased::Disk,
    }
}

/// Gives a connection back that ended so. Where no more bytes came it may have another turn, which
/// begins with the unfinished ones.
fn return_connection<L: Listener>(
    net: &mut L,
    accepted: Accepted<L::Conn>,
    ended: Ended,
    unfinished: &[u8],
) -> Result<(), Failed>
    requires { IfSome (L.connections net.old) HasOut }
    ensures back { (left : Option (List ℕ))
        × IfSome left (λ bytes. (ended ≡ Ended.Silent) × (unfinished.now ≡ bytes))
        × (is_ok result ≡ true → ended ≡ Ended.Silent → left ≡ Some unfinished.now)
        × (L.connections net.new ≡ option_map (gives_back (back_of accepted.number
        (seen ⟦<L::Conn as Source>⟧ ⟦<L::Conn as Sink>⟧ accepted.conn) left))
        (L.connections net.old)) }
    ensures cause { HasCause (L.listener_faults net.old) (L.listener_faults net.new) result }
    ensures port { L.listens net.new ≡ L.listens net.old }
{
    match ended {
        Ended::Silent => net.give_back(accepted, unfinished),
        Ended::Closed
        | Ended::Bad
        | Ended::Failed
        | Ended::TooMuch
        | Ended::NoMemory
        | Ended::Stopped => net.close(accepted),
    }
}

/// Serves a turn of a connection, by a reader that is used again, and gives the connection back
/// however it ended. It says how that went.
fn serve_accepted<K: Keeper, L: Listener, T: Clock>(
    alloc: Global,
    routes: &Routes,
    service: Service<K>,
    reader: &mut HttpReader,
    net: &mut L,
    accepted: Accepted<L::Conn>,
    clock: &mut T,
) -> (Next<K>, Result<(), Failed>)
    requires { IfSome (L.connections net.old) HasOut }
    ensures back { GivesBack ⟦<K as Keeper>⟧ service.state service.keeper (T.moments clock.old)
        accepted.number (seen ⟦<L::Conn as Source>⟧ ⟦<L::Conn as Sink>⟧ accepted.conn)
        (is_ok result.1) (L.connections net.old) (L.connections net.new) (T.moments clock.new)
        result.0 }
    ensures keeps_up { BackKeepsUp ⟦<K as Keeper>⟧ service.state service.keeper
        (T.moments clock.old) accepted.number
        (seen ⟦<L::Conn as Source>⟧ ⟦<L::Conn as Sink>⟧ accepted.conn) (is_ok result.1)
        (L.connections net.old) (L.connections net.new) (T.moments clock.new) result.0 }
    ensures cause { HasCause (L.listener_faults net.old) (L.listener_faults net.new) result.1 }
    ensures port { L.listens net.new ≡ L.listens net.old }
{
    reader.restart();
    let Accepted { number, conn } = accepted;
    let mut conn = conn;
    let (ended, next) = serve_bytes(alloc, routes, service, reader, &mut conn, clock);
    let accepted = Accepted { number, conn };
    let given_back = return_connection(net, accepted, ended, reader.unfinished());
    (next, given_back)
}

/// Serves the next turn of a connection, and says whether there was one.
fn serve_next<K: Keeper, L: Listener, T: Clock>(
    alloc: Global,
    routes: &Routes,
    service: Service<K>,
    reader: &mut HttpReader,
    net: &mut L,
    clock: &mut T,
) -> Result<(Service<K>, bool), (Ceased, K)>
    requires { is_some (L.listens net.old) ≡ true }
    ensures served { IfOk result (λ after. ServedSo true (if after.1 then 1
        else 0) service.state (T.moments clock.old) (L.connections net.old)
        (L.connections net.new) after.0.state (T.moments clock.new)) }
    ensures none { IfOk result (λ after. after.1 ≡ false → NoneComes (L.connections net.new)) }
    ensures kept { IfOk result
        (λ after. KeptOn ⟦<K as Keeper>⟧ service.state.history service.keeper after.0.state.history
        after.0.keeper) }
    ensures ceased { IfErr result
        (λ e. CeasesNext ⟦<K as Keeper>⟧ service.state service.keeper (T.moments clock.old)
        (L.connections net.old) (L.connections net.new) (T.moments clock.new) e.0 e.1) }
    ensures keeps_up { IfOk result (λ after. (s : ServedSo true (if after.1 then 1
        else 0) service.state (T.moments clock.old) (L.connections net.old)
        (L.connections net.new) after.0.state (T.moments clock.new))
        × VisitsKeepUp ⟦<K as Keeper>⟧ service.keeper after.0.state.history after.0.keeper
        s.visits) }
    ensures keeps_up_to { IfErr result
        (λ e. (c : CeasesNext ⟦<K as Keeper>⟧ service.state service.keeper (T.moments clock.old)
        (L.connections net.old) (L.connections net.new) (T.moments clock.new) e.0 e.1)
        × VisitsKeepUp ⟦<K as Keeper>⟧ service.keeper c.halted.after e.1 c.visits) }
    ensures listener { IfErr result (λ e. e.0 ≡ Ceased.Listener
        → Rose (L.listener_faults net.old) (L.listener_faults net.new)) }
    ensures disk { IfErr result (λ e. e.0 ≡ Ceased.Disk
        → Rose (K.keep_faults service.keeper) (K.keep_faults e.1)) }
    ensures port { L.listens net.new ≡ L.listens net.old }
    ensures count { L.listener_faults net.old ≤ L.listener_faults net.new }
    ensures still { OnOk result (L.listener_faults net.new ≡ L.listener_faults net.old) }
{
    service.stays();
    let accepted = match net.accept() {
        Ok(accepted) => accepted,
        Err(Failed) => return Err((Ceased::Listener, service.into_keeper())),
    };
    let turn = match accepted {
        Some(turn) => turn,
        None => return Ok((service, false)),
    };
    let (next, given_back) = serve_accepted(alloc, routes, service, reader, net, turn, clock);
    match next {
        Next::Stop(cause, keeper) => Err((ceased_of(cause), keeper)),
        Next::Go(service) => match given_back {
            Ok(()) => Ok((service, true)),
            Err(Failed) => Err((Ceased::Listener, service.into_keeper())),
        },
    }
}

/// Serves turns of connections one after another, over one table of routes.
fn serve_all<K: Keeper, L: Listener, T: Clock>(
    alloc: Global,
    routes: &Routes,
    service: Service<K>,
    reader: &mut HttpReader,
    net: &mut L,
    clock: &mut T,
    limit: u64,
) -> Result<Service<K>, (Ceased, K)>
    requires { is_some (L.listens net.old) ≡ true }
    ensures served { IfOk result
        (λ to. ServesVisits limit service.state (T.moments clock.old) (L.connections net.old)
        (L.connections net.new) to.state (T.moments clock.new)) }
    ensures kept { IfOk result
        (λ to. KeptOn ⟦<K as Keeper>⟧ service.state.history service.keeper to.state.history
        to.keeper) }
    ensures ceased { IfErr result
        (λ e. CeasesServing ⟦<K as Keeper>⟧ limit service.state service.keeper (T.moments clock.old)
        (L.connections net.old) (L.connections net.new) (T.moments clock.new) e.0 e.1) }
    ensures keeps_up { IfOk result
        (λ to. (s : ServesVisits limit service.state (T.moments clock.old) (L.connections net.old)
        (L.connections net.new) to.state (T.moments clock.new))
        × VisitsKeepUp ⟦<K as Keeper>⟧ service.keeper to.state.history to.keeper s.visits) }
    ensures keeps_up_to { IfErr result
        (λ e. (c : CeasesServing ⟦<K as Keeper>⟧ limit service.state service.keeper (T.moments
        clock.old) (L.connections net.old) (L.connections net.new) (T.moments clock.new) e.0 e.1)
        × VisitsKeepUp ⟦<K as Keeper>⟧ service.keeper c.halted.after e.1 c.visits) }
    ensures listener { IfErr result (λ e. e.0 ≡ Ceased.Listener
        → Rose (L.listener_faults net.old) (L.listener_faults net.new)) }
    ensures disk { IfErr result (λ e. e.0 ≡ Ceased.Disk
        → Rose (K.keep_faults service.keeper) (K.keep_faults e.1)) }
    ensures port { L.listens net.new ≡ L.listens net.old }
    ensures count { L.listener_faults net.old ≤ L.listener_faults net.new }
    ensures still { OnOk result (L.listener_faults net.new ≡ L.listener_faults net.old) }
{
    service.stays();
    let mut service = service;
    let mut served: u64 = 0;
    while served < limit {
        match serve_next(alloc, routes, service, reader, net, clock) {
            Err(end) => return Err(end),
            Ok((after, another)) => {
                if !another {
                    return Ok(after);
                }
                service = after;
                served += 1;
            }
        }
    }
    Ok(service)
}

/// Serves turns of connections one after another, at most so many, until none is to come, and gives
/// each connection back however its turn ended: where no more bytes came it may have another. A
/// connection that fails doesn't end it: that does a call of the listener that failed, and a
/// service that stopped. Then the keeper is given back. `Ok` leaves the listener's count of faults
/// as it was.
pub fn serve_connections<K: Keeper, L: Listener, T: Clock>(
    alloc: Global,
    service: Service<K>,
    net: &mut L,
    clock: &mut T,
    limit: u64,
) -> Result<Service<K>, (Ceased, K)>
    requires listening { is_some (L.listens net.old) ≡ true }
    ensures served { IfOk result
        (λ to. ServesVisits limit service.state (T.moments clock.old) (L.connections net.old)
        (L.connections net.new) to.state (T.moments clock.new)) }
    ensures kept { IfOk result
        (λ to. KeptOn ⟦<K as Keeper>⟧ service.state.history service.keeper to.state.history
        to.keeper) }
    ensures ceased { IfErr result
        (λ e. CeasesServing ⟦<K as Keeper>⟧ limit service.state service.keeper (T.moments clock.old)
        (L.connections net.old) (L.connections net.new) (T.moments clock.new) e.0 e.1) }
    ensures keeps_up { IfOk result
        (λ to. (s : ServesVisits limit service.state (T.moments clock.old) (L.connections net.old)
        (L.connections net.new) to.state (T.moments clock.new))
        × VisitsKeepUp ⟦<K as Keeper>⟧ service.keeper to.state.history to.keeper s.visits) }
    ensures keeps_up_to { IfErr result
        (λ e. (c : CeasesServing ⟦<K as Keeper>⟧ limit service.state service.keeper (T.moments
        clock.old) (L.connections net.old) (L.connections net.new) (T.moments clock.new) e.0 e.1)
        × VisitsKeepUp ⟦<K as Keeper>⟧ service.keeper c.halted.after e.1 c.visits) }
    ensures listener { IfErr result (λ e. e.0 ≡ Ceased.Listener
        → Rose (L.listener_faults net.old) (L.listener_faults net.new)) }
    ensures disk { IfErr result (λ e. e.0 ≡ Ceased.Disk
        → Rose (K.keep_faults service.keeper) (K.keep_faults e.1)) }
    ensures port { L.listens net.new ≡ L.listens net.old }
    ensures count { L.listener_faults net.old ≤ L.listener_faults net.new }
    ensures still { OnOk result (L.listener_faults net.new ≡ L.listener_faults net.old) }
{
    service.stays();
    let Ok(routes) = Routes::new(alloc) else {
        return Err((Ceased::Memory, service.into_keeper()));
    };
    let Ok(mut reader) = HttpReader::new(alloc) else {
        return Err((Ceased::Memory, service.into_keeper()));
    };
    serve_all(alloc, &routes, service, &mut reader, net, clock, limit)
}
