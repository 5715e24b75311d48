// The words of states.
ghost use Rattle.std.specs.Prelude.{◌≡◌};
ghost use Rattle.reg_access.specs.Words.{is_reminded, word_of};

use crate::StateKind;

impl StateKind {
    /// The word of the state: `none`, `never`, `attested`, `due` or `overdue`.
    pub fn word(&self) -> &'static str
        ensures { result.now ≡ word_of self.now }
    {
        match self {
            StateKind::None => "none",
            StateKind::Never => "never",
            StateKind::Attested => "attested",
            StateKind::Due => "due",
            StateKind::Overdue => "overdue",
        }
    }

    /// Whether owners are reminded of the state: of never, due and overdue.
    pub(crate) fn is_reminded(&self) -> bool
        ensures { result ≡ is_reminded self.now }
    {
        match self {
            StateKind::None | StateKind::Attested => false,
            StateKind::Never | StateKind::Due | StateKind::Overdue => true,
        }
    }
}
