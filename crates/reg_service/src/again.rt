// What a key is for: a request that is sent again acts once, and is answered the same.
ghost use Rattle.std.specs.Prelude.{List};
ghost use Rattle.reg_machine.specs.History.{State};
ghost use Rattle.reg_machine.specs.Keys.{KeysOnce};
ghost use Rattle.reg_service.specs.Again.{Happening, MayGo, RepliesAgree};

use crate::service::Service;
use reg_keep::Keeper;

impl<K: Keeper> Service<K> {
    /// No caller has one key twice in the history. Whatever is asked from now on, with openings of
    /// the journal between, all replies of success to one caller's one key are equal. It does
    /// nothing: it is a law of the value.
    pub fn law_answers_again(&self)
        ensures once { KeysOnce self.now.state.history }
        ensures agree { (happenings : List Happening) (last : State)
            → MayGo self.now.state happenings last → RepliesAgree happenings }
    {
        self.machine().law_legal();
    }
}
