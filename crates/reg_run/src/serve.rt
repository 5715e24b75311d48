// Connections, served over the journal on a disk.
ghost use Rattle.std.specs.Prelude.{◌≡◌, ◌≤◌, ◌⊎◌, [], Some, IfOk, IfErr, OnOk, OnErr};
ghost use Rattle.reg_outside.specs.Faults.{Rose, HasCause};
ghost use Rattle.reg_service.specs.Kept.{KeptOn};
ghost use Rattle.reg_serve.specs.KeepingUp.{VisitsKeepUp};
ghost use Rattle.reg_serve.specs.Visits.{CeasesServing, ServesVisits};
ghost use Rattle.reg_run.specs.Crash.{seen};
ghost use Rattle.reg_run.specs.Ends.{Did};
ghost use Rattle.reg_run.specs.Serving.{end_of_serve};
ghost use Rattle.reg_run.specs.World.{World, at_clock, at_net, holding};

use crate::perform::{close, open};
use crate::status::End;
use reg_base::Moment;
use reg_keep::Keeper;
use reg_outside::{Clock, Disk, Failed, Listener};
use reg_serve::{Ceased, serve_connections};
use reg_service::Service;
use reg_words::Task;
use std::alloc::Global;

fn end_of_serve(ceased: Ceased) -> End
    ensures { result ≡ end_of_serve ceased }
{
    match ceased {
        Ceased::Listener => End::Listener,
        Ceased::Memory => End::Memory,
        Ceased::Disk => End::Disk,
    }
}

/// Says what was opened, so many commands and the moment of the last, and listens on a port.
fn listen<L: Listener>(
    net: &mut L,
    port: u16,
    commands: usize,
    moment: Moment,
) -> Result<(), Failed>
    ensures port { OnOk result (L.listens net.new ≡ Some port) }
    ensures kept { OnErr result (L.listens net.new ≡ L.listens net.old) }
    ensures same { L.connections net.new ≡ L.connections net.old }
    ensures cause { HasCause (L.listener_faults net.old) (L.listener_faults net.new) result }
{
    net.announce(commands, moment);
    net.listen(port)
}

/// Listens on a port, and serves so many of its connections.
fn serve_port<J: Keeper, C: Clock, L: Listener>(
    alloc: Global,
    service: Service<J>,
    port: u16,
    connections: u64,
    clock: &mut C,
    net: &mut L,
) -> Result<Service<J>, (Ceased, J)>
    ensures port { OnOk result (L.listens net.new ≡ Some port) }
    ensures served { IfOk result
        (λ to. (s : ServesVisits connections service.state (C.moments clock.old)
        (L.connections net.old) (L.connections net.new) to.state (C.moments clock.new))
        × VisitsKeepUp ⟦<J as Keeper>⟧ service.keeper to.state.history to.keeper s.visits) }
    ensures kept { IfOk result
        (λ to. KeptOn ⟦<J as Keeper>⟧ service.state.history service.keeper to.state.history
        to.keeper) }
    ensures ceased { IfErr result
        (λ e. (c : CeasesServing ⟦<J as Keeper>⟧ connections service.state service.keeper (C.moments
        clock.old) (L.connections net.old) (L.connections net.new) (C.moments clock.new) e.0 e.1)
        × ((c.visits ≡ []) ⊎ (L.listens net.new ≡ Some port))
        × VisitsKeepUp ⟦<J as Keeper>⟧ service.keeper c.halted.after e.1 c.visits) }
    ensures still { OnOk result (L.listener_faults net.new ≡ L.listener_faults net.old) }
    ensures listener { IfErr result (λ e. e.0 ≡ Ceased.Listener
        → Rose (L.listener_faults net.old) (L.listener_faults net.new)) }
    ensures disk { IfErr result (λ e. e.0 ≡ Ceased.Disk
        → Rose (J.keep_faults service.keeper) (J.keep_faults e.1)) }
{
    service.stays();
    let machine = service.machine();
    match listen(net, port, machine.commands(), machine.clock()) {
        Ok(()) => serve_connections(alloc, service, net, clock, connections),
        Err(Failed) => Err((Ceased::Listener, service.into_keeper())),
    }
}

/// Opens the journal on a disk, listens on a port, and serves so many of its connections.
pub(crate) fn serve_over<D: Disk, C: Clock, L: Listener>(
    alloc: Global,
    port: u16,
    connections: u64,
    disk: D,
    clock: &mut C,
    net: &mut L,
) -> (End, D)
    ensures did { (w : World)
        → Did (seen ⟦<D as Disk>⟧ disk result.1) (Task.Serve port connections) result.0
        (holding ⟦<D as Disk>⟧ (at_net ⟦<L as Listener>⟧
        (at_clock ⟦<C as Clock>⟧ w clock.old) net.old) disk)
        (holding ⟦<D as Disk>⟧ (at_net ⟦<L as Listener>⟧
        (at_clock ⟦<C as Clock>⟧ w clock.new) net.new) result.1) }
    ensures object { D.name result.1 ≡ D.name disk }
    ensures later { D.faults disk ≤ D.faults result.1 }
{
    match open(alloc, disk) {
        Err((end, disk)) => (end, disk),
        Ok(service) => match serve_port(alloc, service, port, connections, clock, net) {
            Ok(service) => (End::Done, close(service)),
            Err((ceased, keeper)) => (end_of_serve(ceased), keeper.into_disk()),
        },
    }
}
