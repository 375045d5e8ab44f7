//! What the answers of a board have to do with the schedule of its desks: a law, the contract of a function with an empty body.
ghost use Rattle.std.specs.Prelude.{◌≡◌, ◌<◌, ◌++◌, ◌∷◌, [], ℕ, length, None, Contains};
ghost use Rattle.hd_terms.specs.declared.Event.{Event};
ghost use Rattle.hd_terms.specs.Appending.{append_refusal};
ghost use Rattle.hd_terms.specs.Dump.{Dump};
ghost use Rattle.hd_terms.specs.Log.{IsEvent};
ghost use Rattle.hd_terms.specs.Schedule.{Board, Desks, append, look, learn, catch_up, with_seen, with_front, with_log, fork, Leads, Reaches};
ghost use Rattle.hd_terms.specs.Appending.{with_event};
ghost use Rattle.hd_board.specs.Appends.{IsFound, IsTaken};
ghost use Rattle.hd_board.specs.Opening.{forked_board};

/// An append that is taken up, a look at a log that is found, a longer log that is learned from another desk, and each event
/// that a desk comes to are steps of the schedule. Whatever the schedule, each desk of the board finds the log, and an append
/// by it is refused only for what the log shows. A private board begins where the schedule has it.
pub fn answers_are_steps()
    ensures appends { (board : Board) (s : Desks) (event : Event) → IsTaken board.roots board.numbers (s.desk event.who).seen s.log event
        → Leads board s (append event) (with_seen (with_log s (with_event s.log event)) event.who (with_event s.log event)) }
    ensures looks { (board : Board) (s : Desks) (who : ℕ) → IsFound board.numbers who (s.desk who).seen s.log → Leads board s (look who) (with_seen s who s.log) }
    ensures learns { (board : Board) (s : Desks) (a b : ℕ) → Contains board.numbers a → Contains board.numbers b → length (s.desk a).seen < length (s.desk b).seen
        → Leads board s (learn a b) (with_seen s a (s.desk b).seen) }
    ensures catches { (board : Board) (s : Desks) (a : ℕ) (event : Event) → Contains board.numbers a → IsEvent (s.desk a).seen (length (s.desk a).front) event
        → Leads board s (catch_up a) (with_front s a ((s.desk a).front ++ event ∷ [])) }
    ensures forks { (board : Board) (s : Desks) (a : ℕ) (dump : Dump) → board.roots ≡ length dump.roots
        → forked_board (record { who = a; dump = dump; seen = (s.desk a).seen; front = (s.desk a).front }) ≡ fork board s a }
    ensures finds { (board : Board) (s : Desks) → Reaches board s → (a : ℕ) → Contains board.numbers a → IsFound board.numbers a (s.desk a).seen s.log }
    ensures takes { (board : Board) (s : Desks) → Reaches board s → (event : Event) → Contains board.numbers event.who → append_refusal board.roots s.log event ≡ None
        → IsTaken board.roots board.numbers (s.desk event.who).seen s.log event }
{}
