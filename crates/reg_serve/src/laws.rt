// What holds of every connection. These functions do nothing: their clauses are the laws.
ghost use Rattle.std.specs.Prelude.{◌≡◌, ◌≢◌, ◌⊎◌, List, ℕ, Option, All, IfSome};
ghost use Rattle.httparse.specs.Grammar.{EndsInTarget};
ghost use Rattle.reg_http.specs.Messages.{window};
ghost use Rattle.reg_terms.specs.declared.reply.Reply.TheVariants as reply;
ghost use Rattle.reg_session.specs.Answered.{Point};
ghost use Rattle.reg_http.specs.declared.call.Call.{Call};
ghost use Rattle.reg_serve.specs.Answered.{Answered};
ghost use Rattle.reg_serve.specs.Exact.{replies_of, replies, last_state};
ghost use Rattle.reg_outside.specs.Connections.{Connections, next_turn};
ghost use Rattle.reg_machine.specs.History.{State};
ghost use Rattle.reg_session.specs.Answered.{Gives};
ghost use Rattle.reg_serve.specs.Answered.{MayAnswer, calls_of, responses_of, times_of};
ghost use Rattle.reg_serve.specs.Joined.{Continues, IsUnused, Joined, all_answers, answers_to};
ghost use Rattle.reg_serve.specs.Joined.{came_of, came_with, join_known};
ghost use Rattle.reg_serve.specs.Visits.{HadTurn, Sessions, Visit, Visited};
ghost use Rattle.reg_serve.specs.Whole.{Whole};

use reg_http::{turns_are_of_all_bytes, turns_exclude_each_other};

/// Where no reply says that there was no memory, the replies are one function of the state, the
/// moments to come and the messages.
pub fn replies_are_one()
    ensures { (before after : Point) (calls : List Call) (a : Answered before calls after)
        → IfSome before.moments (λ coming.
        All (λ told. told ≢ reply.NoMemory) (replies_of a.answers)
        → (replies_of a.answers ≡ replies before.state coming calls)
        × (after.state ≡ last_state before.state coming calls)) }
{}

/// Cutting a connection's bytes anywhere changes no byte of its responses: two sessions over the
/// same bytes, from the same state with the same moments to come, that ended whole and never wanted
/// memory, wrote the same. Only where the bytes end inside a target that no continuation makes a
/// head may one have waited for more where the other refused.
pub fn cutting_changes_no_response()
    ensures { (before : Point) (taken : List ℕ) (one two : Option (List ℕ))
        (first : Whole before taken one) → Whole before taken two
        → IfSome before.moments (λ coming. (one ≡ two)
        ⊎ EndsInTarget (window first.session.reading.rest)) }
{
    turns_exclude_each_other();
}

/// The turns of a connection are one session, whatever turns of others come between them. In each
/// it comes with what its earlier turns left of all its bytes by then, behind the messages that
/// they answered, and just their responses are written to it. Behind its last turn the same is so
/// of one that may have another. New connections come with nothing written to them. All messages
/// of all turns are answered as one list, one after another.
pub fn turns_are_one_session()
    ensures continues { (start mid new : Connections) (earlier : List Visit) (v : Visit)
        (s last : State) (moments later : Option (List ℕ)) → IsUnused start
        → (had : Visited start mid earlier) (all : Sessions s moments earlier last later)
        → HadTurn v mid new → Continues v (join_known (came_of v.number start mid earlier had)
        (came_with (next_turn mid.given_back mid.coming)))
        (calls_of (answers_to v.number s moments earlier last later all))
        (responses_of (answers_to v.number s moments earlier last later all)) }
    ensures joined { (number : ℕ) (start new : Connections) (visits : List Visit) (s last : State)
        (moments later : Option (List ℕ)) → IsUnused start → (had : Visited start new visits)
        (all : Sessions s moments visits last later)
        → Joined new number (came_of number start new visits had)
        (calls_of (answers_to number s moments visits last later all))
        (responses_of (answers_to number s moments visits last later all)) }
    ensures one_list { (visits : List Visit) (s last : State) (moments later : Option (List ℕ))
        (all : Sessions s moments visits last later)
        → MayAnswer s (all_answers s moments visits last later all) last
        × Gives moments (times_of (all_answers s moments visits last later all)) later }
{
    turns_are_of_all_bytes();
}
