//! What holds of the turns of every reader. These functions do nothing: their clauses are the laws.

ghost use Rattle.std.specs.Prelude.{◌≡◌, ℕ, ◌⊎◌, List, [], ◌++◌};
ghost use Rattle.httparse.specs.Grammar.{EndsInTarget};
ghost use Rattle.reg_http.specs.Messages.{window, IsMessage, HasFault, IsUnfinished};
ghost use Rattle.reg_http.specs.Turns.{Reading, start, fed, GivesTurn};
ghost use Rattle.reg_http.specs.Runs.{HasGiven, calls_in, Step, Leads, bytes_of, calls_of};
ghost use Rattle.reg_http.specs.Runs.{IsDrained};
ghost use Rattle.reg_http.specs.declared.call.Call.{Call};
ghost use Rattle.reg_http.specs.declared.call.Turn.{Turn};
ghost use Rattle.reg_http.specs.declared.call.HeadFault.{HeadFault};

/// Bytes begin with one message, with a fault, or with neither. Only inside a target of which no
/// continuation is a head may more be asked for where there is a fault.
pub fn turns_exclude_each_other()
    ensures one_message { (bytes : List ℕ) (call other : Call) (later left : List ℕ)
        → IsMessage bytes call later → IsMessage bytes other left
        → (call ≡ other) × (later ≡ left) }
    ensures no_more { (bytes : List ℕ) (call : Call) (later : List ℕ) → IsMessage bytes call later
        → ¬ (IsUnfinished bytes) }
    ensures no_fault { (bytes : List ℕ) (call : Call) (later : List ℕ) (fault : HeadFault)
        → IsMessage bytes call later → ¬ (HasFault bytes fault) }
    ensures open_point { (bytes : List ℕ) (fault : HeadFault) → IsUnfinished bytes
        → HasFault bytes fault → EndsInTarget (window bytes) }
    ensures one_fault { (bytes : List ℕ) (fault other : HeadFault) → HasFault bytes fault
        → HasFault bytes other
        → (fault ≡ other) ⊎ EndsInTarget (window bytes) }
{}

/// What a reader gives are the messages of all bytes that it was fed, each once and in order, and
/// then the fault of the rest.
pub fn turns_are_of_all_bytes()
    ensures begun { HasGiven [] [] start }
    ensures fed { (bytes piece : List ℕ) (calls : List Call) (reading : Reading)
        → HasGiven bytes calls reading
        → HasGiven (bytes ++ piece) calls (fed reading piece) }
    ensures given { (bytes : List ℕ) (calls : List Call) (before after : Reading) (turn : Turn)
        → HasGiven bytes calls before → GivesTurn before turn after
        → HasGiven bytes (calls ++ calls_in turn) after }
    ensures run { (steps : List Step) (last : Reading) → Leads steps start last
        → HasGiven (bytes_of steps) (calls_of steps) last }
{}

/// Cutting the bytes anywhere, and asking in between, changes no turn: two readers that were fed
/// the same bytes, and then gave all that they could, gave the same.
pub fn cutting_changes_no_turn()
    ensures { (bytes : List ℕ) (calls others : List Call) (one two : Reading)
        → HasGiven bytes calls one → HasGiven bytes others two
        → IsDrained one → IsDrained two
        → (calls ≡ others) × (one.rest ≡ two.rest)
        × ((one.fault ≡ two.fault) ⊎ EndsInTarget (window one.rest)) }
{}
