// Commands that are carried out while they wait to be kept by one call.
ghost use Rattle.std.specs.Prelude.{◌≡◌, ℕ, List, Result, Ok, false, length, IfOk, IfErr};
ghost use Rattle.std.specs.Prelude.{IfSome};
ghost use Rattle.reg_outside.specs.Faults.{Rose};
ghost use Rattle.reg_service.specs.Holding.{first_of};
ghost use Rattle.reg_service.specs.Kept.{KeptOn, Stopped};
ghost use Rattle.reg_service.specs.Opening.{FrontsReopen, payloads_of};
ghost use Rattle.reg_service.specs.Waiting.{none_behind};

use crate::service::Service;
use crate::waiting::Waiting;
use reg_keep::{KeepFault, Keeper};
use std::alloc::Global;

impl<K: Keeper> Service<K> {
    /// The service with its further commands in memory, where they wait to be kept, and the keeper
    /// as it stands, which has the history. It takes no memory.
    pub fn hold(self, alloc: Global) -> (Service<Waiting>, K)
        ensures state { result.0.state ≡ self.state }
        ensures none { result.0.keeper ≡ none_behind self.state.history }
        ensures name { ⟦<Waiting as Keeper>⟧.keep_name result.0.keeper
            ≡ length self.state.history }
        ensures keeper { result.1 ≡ self.keeper }
        ensures payloads { IfSome (K.payloads result.1) (λ ps. ps
            ≡ payloads_of self.state.history) }
        ensures going { K.has_failed result.1 ≡ false }
        ensures leaves { (r : Result (List (List ℕ)) ℕ) → K.stop_leaves result.1 r
            → r ≡ Ok (payloads_of self.state.history) }
        ensures fronts { FrontsReopen self.state.history }
        ensures stays { KeptOn ⟦<K as Keeper>⟧ self.state.history result.1 self.state.history
            result.1 }
    {
        self.stays();
        let Service { machine, keeper } = self;
        let waiting = Waiting::behind(alloc, &machine);
        let service = Service {
            machine,
            keeper: waiting,
        };
        (service, keeper)
    }
}

impl Service<Waiting> {
    /// Adds what waits to the keeper that has the history from before any waited, by one
    /// `append_all`. The service goes on over that keeper; or the keeper failed, and is given back
    /// with all of that history and a front of what waited.
    pub fn settle<K: Keeper>(self, keeper: K) -> Result<Service<K>, K>
        requires payloads { IfSome (K.payloads keeper) (λ ps. ps ≡ payloads_of (first_of self)) }
        requires going { K.has_failed keeper ≡ false }
        ensures state { IfOk result (λ s. s.state ≡ self.state) }
        ensures kept { IfOk result
            (λ s. KeptOn ⟦<K as Keeper>⟧ (first_of self) keeper self.state.history s.keeper) }
        ensures still { IfOk result (λ s. K.keep_faults s.keeper ≡ K.keep_faults keeper) }
        ensures given_back { IfErr result
            (λ k. KeptOn ⟦<K as Keeper>⟧ (first_of self) keeper self.state.history k) }
        ensures stopped { IfErr result
            (λ k. IfSome (K.payloads keeper) (λ ps. Stopped ⟦<K as Keeper>⟧ (first_of self)
            self.state.history k)) }
        ensures rose { IfErr result (λ k. Rose (K.keep_faults keeper) (K.keep_faults k)) }
    {
        let Service {
            machine,
            keeper: waiting,
        } = self;
        let mut keeper = keeper;
        match keeper.append_all(waiting.held()) {
            Ok(()) => Ok(Service { machine, keeper }),
            Err(KeepFault) => Err(keeper),
        }
    }
}
