//! Theorems about runs of sessions: each is the contract of a function that does nothing, so no program has to call one.

ghost use Rattle.std.specs.Prelude.{◌≡◌, ◌<◌, ℕ, [], All, List, Option, Ok};
ghost use Rattle.oftp_codec.specs.declared.frame_fault.FrameFault.{FrameFault};
ghost use Rattle.oftp_codec.specs.Stream.{Reads};
ghost use Rattle.oftp_codec.specs.declared.limits.TheConstants.{LONGEST_FRAME};
ghost use Rattle.oftp_engine.specs.Conversation.{Dialogue, HasHeard, HearsOn, IsFresh, StillListens};
ghost use Rattle.oftp_engine.specs.Openings.{IsAccepted, TakesOver, admission_of};
ghost use Rattle.oftp_engine.specs.Events.{DeedsAreOrders, SessionsAreDealings, StopsLeavePrefixes};
ghost use Rattle.oftp_engine.specs.Frames.{over_commands};
ghost use Rattle.oftp_engine.specs.Parts.{JobsMakeTheFile, NoCountPasses, PartsMakeTheFile};
ghost use Rattle.oftp_engine.specs.Promise.{CodesAreNeeded, TwoStations, TwoStationsAlone};
ghost use Rattle.oftp_engine.specs.Queues.{QueuesAreHeard, RunsAreHeard, RunsSayCommands, RunsSayQueues};
ghost use Rattle.oftp_engine.specs.Ranges.{RangesAreKept};
ghost use Rattle.oftp_engine.specs.Resources.{PayloadsNeverLackMemory, RunsNeverLackResources};
ghost use Rattle.oftp_engine.specs.Runs.{Course, run, started};
ghost use Rattle.oftp_engine.specs.Serving.{scene};
ghost use Rattle.oftp_engine.specs.declared.serving.Admission.TheVariants.{LetIn};
ghost use Rattle.oftp_partners.specs.Book.{BookData};
ghost use Rattle.oftp_session.specs.Settings.{Setting};
ghost use Rattle.oftp_register.specs.Register.{Register};
ghost use Rattle.oftp_register.specs.Changes.{apply_all};
ghost use Rattle.oftp_register.specs.Soundness.{IsSound};

use oftp_io::Port;
use oftp_register::Office;
use std::io::Write;

/// A run over the octets of a stream is the fold over the commands in its frames, with the error after them. The function does nothing; its
/// contract is the theorem.
pub fn folds_over_frames()
    ensures { (limit : Option ℕ) (stream : List ℕ) (commands : List (List ℕ)) (fault : Option FrameFault) (c : Course)
        → All (λ octet. octet < 256) stream → Reads LONGEST_FRAME stream commands fault
        → run limit stream c ≡ over_commands limit commands fault c }
{}

/// The frames of a station, one after another, may be cut off anywhere. The other station then reads the commands whose frames are whole,
/// each as it was sent, without an error. Its session over these octets is the one over these commands. The function does nothing; its
/// contract is the theorem.
pub fn queues_are_heard()
    ensures { QueuesAreHeard }
{}

/// A session sends commands, each as a frame. What it has out at its end, or at an error, is these frames in order, cut off somewhere. If it
/// begins with a book, a partner and a register whose fields are in range, a frame can hold each of these commands. So the other station reads
/// the first of them as they were sent. The function does nothing; its contract is the theorem.
pub fn runs_say_queues()
    ensures commands { RunsSayCommands }
    ensures queues { RunsSayQueues }
    ensures heard { RunsAreHeard }
{}

/// The fields of a register stay in range. That is so of an empty register, after the changes of a session, wherever it stops, and after an
/// operator's call whose texts are UTF-8. The function does nothing; its contract is the theorem.
pub fn ranges_are_kept()
    ensures { RangesAreKept }
{}

/// No output of a run is ESID 08, whether or not the writer returned an error. That is so whatever the book, the partner, the octets and the
/// register. No payload is refused for lack of memory. So ESID 08 is sent only after an error of the office. The function does nothing; its
/// contract is the theorem.
pub fn runs_never_lack_resources()
    ensures runs { RunsNeverLackResources }
    ensures payloads { PayloadsNeverLackMemory }
{}

/// What a [`Conversation`](crate::Conversation) has heard carries over from call to call. It begins with nothing, and each piece is
/// appended to those before it. Where it waits, it still waits after others have used the office and left it as it was, as look-ups do. The
/// function does nothing; its contract is the theorem.
pub fn conversations_hear_pieces<O: Office, W: Write>()
    ensures begins { (setting : Setting) (talk : Dialogue) (first : O) (front : Port W) → (O.view first).clean → (O.view first).stands → IsFresh setting talk
        → HasHeard setting [] talk (scene W.contents (O.view first) front) (scene W.contents (O.view first) front) }
    ensures hears { (setting : Setting) (given octets : List ℕ) (old new : Dialogue) (first now : O) (front here : Port W)
        → HearsOn setting given octets old new (scene W.contents (O.view first) front) (scene W.contents (O.view now) here) }
    ensures waits { (setting : Setting) (given : List ℕ) (talk : Dialogue) (first now later : O) (front here : Port W)
        → StillListens setting given talk (scene W.contents (O.view first) front) (scene W.contents (O.view now) here) (O.view later) }
{}

/// All changes of a run from a sound register are made, one after another. The function does nothing; its contract is the theorem.
pub fn changes_are_made()
    ensures { (limit : Option ℕ) (setting : Setting) (given : List ℕ) (r : Register) → IsSound r
        → apply_all r (run limit given (started setting r)).changes ≡ Ok (run limit given (started setting r)).register }
{}

/// A file comes in parts, over any sessions that break anywhere, with an operator's calls between them. At each time the register has
/// nothing of it, or a beginning, or the file as one transfer gives it. The function does nothing; its contract is the theorem.
pub fn jobs_make_the_file()
    ensures { JobsMakeTheFile }
{}

/// One session brings parts of a file, and may break anywhere. After each of its changes the register has nothing of the file, or a
/// beginning, or the file as one transfer gives it. [`jobs_make_the_file`](crate::laws::jobs_make_the_file) says the same of any sessions and
/// calls. The function does nothing; its contract is the theorem.
pub fn parts_make_the_file()
    ensures { PartsMakeTheFile }
{}

/// An accepted start names no more rows than there are, and leaves exactly those. The function does nothing; its contract is the theorem.
pub fn no_count_passes()
    ensures { NoCountPasses }
{}

/// Two stations among any others keep their promise after every list of events. An event is a session, a command that arrives or is lost, or a
/// break. It is a crash or an error of an office at any change, or an operator's call. It is a file or response that another caller commits, or
/// dealings with third partners. The promise is of the files from either of them to the other, by the two codes. What one station holds as
/// handed over is whole at the other, and what is whole there is a file of the first. What the first holds as delivered or returned was
/// answered so there. If the two are alone, the promise is of all files. The function does nothing; its contract is the theorem.
pub fn two_stations()
    ensures among { TwoStations }
    ensures alone { TwoStationsAlone }
{}

/// Among others the promise of two stations isn't kept of all files, whatever their books. After one event a file of a third partner is whole
/// at one of them, and the other has none with its identity. So [`two_stations`](crate::laws::two_stations) needs the two codes. The function
/// does nothing; its contract is the theorem.
pub fn codes_are_needed()
    ensures { CodesAreNeeded }
{}

/// What a session with a third partner leaves, in the words of [`serve`](crate::serve), is what an event of two stations leaves. The partner
/// may send any octets, as long as the station accepts no SSID with the other station's code. The function does nothing; its contract is the
/// theorem.
pub fn sessions_are_dealings()
    ensures { SessionsAreDealings }
{}

/// What an operator's call does at a station without a session, to any partner of its book, is an event of two stations. The event leaves
/// the register that [`operate`](crate::operate) leaves, and changes nothing else. The function does nothing; its contract is the theorem.
pub fn deeds_are_orders()
    ensures { DeedsAreOrders }
{}

/// What a crash leaves of a session, in the words of [`serve`](crate::serve), is what an event of two stations leaves. The crash is between
/// two steps, or within one of which any number of octets is out. The function does nothing; its contract is the theorem.
pub fn stops_leave_prefixes()
    ensures { StopsLeavePrefixes }
{}

/// A caller is let in exactly where the first whole command of what it has sent is an SSID that the book accepts. From there on each office
/// that is open can go on, whatever its register: the conversation has heard all octets of the caller. It is where it would be had the office
/// been there from the first octet on. The function does nothing; its contract is the theorem.
pub fn callers_need_no_office<O: Office, W: Write>()
    ensures only { (book : BookData) (octets : List ℕ) → admission_of book octets ≡ LetIn → IsAccepted book octets }
    ensures each { (book : BookData) (octets : List ℕ) → IsAccepted book octets → admission_of book octets ≡ LetIn }
    ensures any { (book : BookData) (octets : List ℕ) (talk : Dialogue) (before now : Port W) (office : O)
        → TakesOver W.contents book octets talk before now (O.view office) }
{}
