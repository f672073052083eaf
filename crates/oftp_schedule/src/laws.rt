//! What holds of every run of the schedule, whatever is told: each law is the contract of a function that does nothing.

ghost use Rattle.std.specs.Prelude.{◌≡◌, List, Some, true, ◌≢◌, ◌≤◌, ◌+◌, ◌++◌, ◌∷◌, ℕ};
ghost use Rattle.oftp_schedule.specs.declared.connection.Limits.{Limits};
ghost use Rattle.oftp_schedule.specs.Machine.{State, Move, start, run, step, choice, is_ending};
ghost use Rattle.oftp_schedule.specs.Apart.{IsApart, ChosenApart, IsPaced, IsDated, IsBrief, IsRested};
ghost use Rattle.oftp_schedule.specs.Doors.{evictions, leaver, number};
ghost use Rattle.oftp_schedule.specs.Order.{IsFirst, IsTurn, IsRound};
ghost use Rattle.oftp_schedule.specs.Ends.{BeginsNothing, Departs, IsOver};
ghost use Rattle.oftp_schedule.specs.declared.connection.Request.{Request};
ghost use Rattle.oftp_schedule.specs.declared.connection.Action.TheVariants.{Answer};
ghost use Rattle.oftp_schedule.specs.History.{Note, Ordered, history, watch};
ghost use Rattle.oftp_schedule.specs.Life.{AreAnswered, Unbegun, Whole, Broken, life, stage_of, hands, answers, declines, refusals, prints, asks_for, wants_call, handing, times_ordered, times_told};
ghost use Rattle.oftp_schedule.specs.declared.connection.Event.{Event};
ghost use Rattle.oftp_schedule.specs.declared.connection.Phase.{Phase};
ghost use Rattle.oftp_schedule.specs.declared.connection.Call.{Call};
ghost use Rattle.oftp_schedule.specs.Deadlines.{IsWithin, SessionsEnd, KeepsEnds, KnowsDeadlines, KnowsClock, KnowsRests, KnowsRoom, KnowsQuiet, KnowsWay, IsUnmovedBy, IsUnmoved, IsKept, IsOnTime, GivesWay, YieldsInTime, IsOfTime, IsOnceLess, IsHastened, IsToCome};
ghost use Rattle.oftp_schedule.specs.Calls.{HasOneEach, KeepsCalls, call_of_number, hang_ups};
ghost use Rattle.oftp_schedule.specs.Wakeups.{GuestsAreAwake, UpdatesAreAwake, UpsAreAwake, ClockIsAwake, QueriesAreAwake, SessionIsAwake, CallsAreAwake, CommandsAreAwake, DoorsAreAwake, EndIsAwake, EndComes};

/// Each deadline lies within its limit, a session ends in its time, and nothing moves that. `Schedule::poll_timeout` is no later than any moment
/// at which something is to be done. What is told of others, and what is chosen for them, moves no deadline. Only the end of the station makes
/// answers hurry, and from then on none of them gains time. And where the schedule says nothing more, no deadline is past, and
/// `Schedule::poll_timeout` is to come, if a door rests for any time at all. A call gives way no earlier than after its partner's pause, and only
/// while nothing of that partner is there to hear. Nobody is closed, declined or made again for its time before that is over. The exception is a
/// call that has given way as often as it may. Each time that a call hangs up or gives way it may do so once less.
pub fn gone_in_time()
    ensures within { (limits : Limits) (moves : List Move) → IsWithin limits (run (start limits) moves) }
    ensures ends { (limits : Limits) (moves : List Move) → SessionsEnd limits (run (start limits) moves) }
    ensures keeps { (limits : Limits) (moves : List Move) (next : Move) → KeepsEnds (run (start limits) moves) next }
    ensures least { (limits : Limits) (moves : List Move) → KnowsDeadlines (run (start limits) moves) }
    ensures clock { (limits : Limits) (moves : List Move) → KnowsClock (run (start limits) moves) }
    ensures rests { (limits : Limits) (moves : List Move) → KnowsRests (run (start limits) moves) }
    ensures room { (limits : Limits) (moves : List Move) → KnowsRoom (run (start limits) moves) }
    ensures quiet { (limits : Limits) (moves : List Move) → KnowsQuiet (run (start limits) moves) }
    ensures way { (limits : Limits) (moves : List Move) → KnowsWay (run (start limits) moves) }
    ensures told { (limits : Limits) (moves : List Move) (event : Event) → IsUnmovedBy (run (start limits) moves) event }
    ensures asked { (limits : Limits) (moves : List Move) → IsUnmoved (run (start limits) moves) }
    ensures kept { (phase : Phase) → IsKept phase }
    ensures gone { (limits : Limits) (moves : List Move) → IsOnTime (run (start limits) moves) }
    ensures gives_way { (limits : Limits) (moves : List Move) → GivesWay (run (start limits) moves) }
    ensures yields { (limits : Limits) (moves : List Move) → YieldsInTime (run (start limits) moves) }
    ensures early { (limits : Limits) (moves : List Move) → IsOfTime (run (start limits) moves) (choice (run (start limits) moves)) }
    ensures fewer { (limits : Limits) (moves : List Move) → IsOnceLess (run (start limits) moves) (choice (run (start limits) moves)) }
    ensures hastens { (limits : Limits) (moves : List Move) (next : Move) → IsHastened (run (start limits) moves) next }
    ensures to_come { (limits : Limits) (moves : List Move) → IsToCome (run (start limits) moves) }
{}

/// Nothing waits for nothing. If the schedule says nothing more, whatever waits does so for something whose end is told, or for somebody whose
/// deadline the shell waits for. What is told is the end of a job of the office, of the look-up of an address, or of one who is being accepted. A
/// look-up within a session may also wait for the end of the rest after another, which the shell waits for too.
pub fn no_lost_wakeup()
    ensures guests { (limits : Limits) (moves : List Move) → GuestsAreAwake (run (start limits) moves) }
    ensures updates { (limits : Limits) (moves : List Move) → UpdatesAreAwake (run (start limits) moves) }
    ensures ups { (limits : Limits) (moves : List Move) → UpsAreAwake (run (start limits) moves) }
    ensures clock { (limits : Limits) (moves : List Move) → ClockIsAwake (run (start limits) moves) }
    ensures queries { (limits : Limits) (moves : List Move) → QueriesAreAwake (run (start limits) moves) }
    ensures session { (limits : Limits) (moves : List Move) → SessionIsAwake (run (start limits) moves) }
    ensures calls { (limits : Limits) (moves : List Move) → CallsAreAwake (run (start limits) moves) }
    ensures commands { (limits : Limits) (moves : List Move) → CommandsAreAwake (run (start limits) moves) }
    ensures doors { (limits : Limits) (moves : List Move) → DoorsAreAwake (run (start limits) moves) }
    ensures end { (limits : Limits) (moves : List Move) → EndIsAwake (run (start limits) moves) }
    ensures end_comes { (limits : Limits) (moves : List Move) → EndComes (run (start limits) moves) }
{}

/// The life of one connection. An observer of one number knows only what was told of it and what was ordered for it. It stands where the schedule
/// has that connection, and nothing happens to it that may not.
///
/// So a request is handed over once, and as what it is, and not if it is declined at the end of the station. It is answered once or declined, and
/// not answered before it was handed over, unless it waits for a call. One line at most is printed for a connection. Who asked, and whose request
/// is whole, is closed only after its answer, a refusal, or the news that it is gone.
pub fn at_most_once()
    ensures life { (limits : Limits) (moves : List Move) (id : ℕ) →
        watch (life id) Unbegun (history (start limits) moves) ≡ stage_of id (run (start limits) moves) }
    ensures unbroken { (limits : Limits) (moves : List Move) (id : ℕ) →
        watch (life id) Unbegun (history (start limits) moves) ≢ Broken }
    ensures handed { (limits : Limits) (moves : List Move) (id : ℕ) →
        (times_ordered hands id (history (start limits) moves) ≤ 1) ×
        (times_ordered hands id (history (start limits) moves) + times_ordered refusals id (history (start limits) moves) ≤ 1) }
    ensures answered { (limits : Limits) (moves : List Move) (id : ℕ) →
        times_ordered answers id (history (start limits) moves) + times_ordered declines id (history (start limits) moves) ≤ 1 }
    ensures printed { (limits : Limits) (moves : List Move) (id : ℕ) → times_ordered prints id (history (start limits) moves) ≤ 1 }
    ensures asked { (limits : Limits) (moves : List Move) (id : ℕ) (request : Request) (before after : List Note) →
        history (start limits) moves ≡ before ++ Ordered (handing request id) ∷ after → 1 ≤ times_told (asks_for request) id before }
    ensures answer { (limits : Limits) (moves : List Move) (id : ℕ) (before after : List Note) →
        history (start limits) moves ≡ before ++ Ordered (Answer id) ∷ after →
        1 ≤ times_ordered hands id before + times_told wants_call id before }
    ensures kept { (limits : Limits) (moves : List Move) → AreAnswered (history (start limits) moves) }
{}

/// One thing at a time. The office has one job at most: a step of a session, a request, or the clock's look-up. There is one session, or one copy
/// of the database's files, at most. There is one call at most that is up without a session, and one connection that is being accepted. A job
/// begins if the office has none. A session, a change, a copy, the clock's look-up or a call begins only if there is neither a session nor a
/// copy. So between two pieces of a session there are look-ups alone. While there are octets to hear, a look-up comes only if the share is used
/// up: after so many octets, or a wait. After each look-up none begins within a session for as long as that one took, and only the end of a
/// look-up lengthens that rest.
pub fn one_at_a_time()
    ensures apart { (limits : Limits) (moves : List Move) → IsApart (run (start limits) moves) }
    ensures chosen { (limits : Limits) (moves : List Move) → ChosenApart (run (start limits) moves) (choice (run (start limits) moves)) }
    ensures paced { (limits : Limits) (moves : List Move) → IsPaced (run (start limits) moves) (choice (run (start limits) moves)) }
    ensures dated { (limits : Limits) (before during : List Move) → IsDated (run (start limits) before) during }
    ensures brief { (limits : Limits) (moves : List Move) (next : Move) → IsBrief (run (start limits) moves) next }
    ensures rested { (limits : Limits) (before during after : List Move) → IsRested (run (start limits) before) during after }
{}

/// A call is of one partner and for one asker as long as it is there, whatever comes. It hangs up, to give way or because its session didn't
/// begin, as often as the limits say and no more. What it may still do so is the rest. The clock has one call of a partner at a time.
pub fn calls_are_bounded()
    ensures one_each { (limits : Limits) (moves : List Move) → HasOneEach (run (start limits) moves) }
    ensures keeps { (limits : Limits) (before during : List Move) → KeepsCalls (run (start limits) before) during }
    ensures left { (limits : Limits) (moves : List Move) (id : ℕ) (call : Call) → call_of_number id (run (start limits) moves) ≡ Some call →
        hang_ups id (history (start limits) moves) + call.times ≡ limits.times }
    ensures most { (limits : Limits) (moves : List Move) (id : ℕ) → hang_ups id (history (start limits) moves) ≤ limits.times }
{}

/// Of each kind the first in the table is served first. A session begins only if no change or copy is owed that came within the last one. Who is
/// let in, and whose request is whole, goes to the end of the table by the machine's definition (`Queue`, specs/Machine.antt).
///
/// While a guest waits, a change that isn't owed, a look-up or a call comes only in its turn. Between two such changes a session begins, and no
/// call is begun if the last session was a call's.
pub fn in_order()
    ensures first { (limits : Limits) (moves : List Move) → IsFirst (run (start limits) moves) (choice (run (start limits) moves)) }
    ensures turn { (limits : Limits) (moves : List Move) → IsTurn (run (start limits) moves) (choice (run (start limits) moves)) }
    ensures round { (limits : Limits) (before during : List Move) → IsRound (run (start limits) before) during }
{}

/// Once the station is to end, it stays so and nothing new begins. A door that failed or a failed office is such a cause. Nobody is accepted or
/// called, and no session, change or copy begins. Once everybody is gone the program ends, and nothing follows.
pub fn ends_in_order()
    ensures stays { (state : State) (move : Move) → is_ending state.course ≡ true → is_ending (step state move).0.course ≡ true }
    ensures nothing_new { (limits : Limits) (moves : List Move) → BeginsNothing (run (start limits) moves) (choice (run (start limits) moves)) }
    ensures departs { (limits : Limits) (moves : List Move) → Departs (run (start limits) moves) }
    ensures over { (limits : Limits) (moves : List Move) → IsOver (run (start limits) moves) }
{}

/// Nobody is closed for another, but if one was accepted at a door that is too full then. It is the oldest stranger that has been there for long
/// enough.
pub fn no_needless_eviction()
    ensures { (limits : Limits) (moves : List Move) (move : Move)
        → evictions (step (run (start limits) moves) move).1 ≡ number (leaver (run (start limits) moves) move) }
{}
