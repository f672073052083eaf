//! What the schedule speaks of: connections and their phases, what is told of them, and what is to be done. It is all plain data.

/// A moment: milliseconds of a clock that never goes back.
pub type Millis = u64;

/// Where a connection comes from.
#[derive(Clone, Copy, Debug, PartialEq, Eq)]
pub enum Door {
    /// Partners who call.
    Partners,
    /// Commands.
    Commands,
    /// Requests over HTTP.
    Requests,
    /// The station's own calls, which come through no door.
    Calls,
}

/// What a request asks of the life.
#[derive(Clone, Copy, Debug, PartialEq, Eq)]
pub enum Request {
    /// A look-up. It changes nothing, and may be done between two pieces of a session.
    Query,
    /// An operator's change.
    Update,
    /// A copy of the database's files, which its command makes itself.
    Backup,
}

/// When a request has its turn.
#[derive(Clone, Copy, Debug, PartialEq, Eq)]
pub enum Rank {
    /// In turn with jobs of the other kinds.
    Usual,
    /// Before the next session: it came within the last one.
    Owed,
}

/// A partner of the book who is called.
#[derive(Clone, Copy, Debug, PartialEq, Eq)]
pub struct Partner {
    /// Its number, which is of no other partner.
    pub number: u32,
    /// How long a guest waits before a call of it gives way, in milliseconds.
    pub pause: u32,
    /// The longest wait in a session with it, in milliseconds.
    pub patience: u32,
    /// The longest session with it, in milliseconds.
    pub longest: u32,
}

/// Who wants a call.
#[derive(Clone, Copy, Debug, PartialEq, Eq)]
pub enum Asker {
    /// The clock.
    ByClock,
    /// The command with this number.
    By(u64),
}

/// A call of a partner.
#[derive(Clone, Copy, Debug, PartialEq, Eq)]
pub struct Call {
    pub partner: Partner,
    pub asker: Asker,
    /// How often it may still hang up, and be made again.
    pub times: u32,
}

/// Who began a session.
#[derive(Clone, Copy, Debug, PartialEq, Eq)]
pub enum Way {
    /// The partner.
    In,
    /// The station. The partner has answered.
    Out(Call),
    /// The station. The partner has answered once so many octets more have come.
    Unanswered(Call, u32),
}

/// What there is to hear of a session's partner.
#[derive(Clone, Copy, Debug, PartialEq, Eq)]
pub enum Input {
    /// Nothing yet.
    Awaited,
    /// Octets.
    Here,
    /// The last octets: its input has ended.
    Last,
    /// Nothing any more.
    Gone,
}

/// A session.
#[derive(Clone, Copy, Debug, PartialEq, Eq)]
pub struct Session {
    pub way: Way,
    /// When it began.
    pub begun: Millis,
    /// When it is ended if it still goes on.
    pub ends: Millis,
    /// How long each wait may be, in milliseconds.
    pub patience: u32,
    /// When the present wait is over.
    pub until: Millis,
    pub input: Input,
    /// How many octets are still to be heard until a look-up has its turn, also where more are there.
    pub share: u32,
    /// How many octets are to go out.
    pub backlog: u64,
}

/// Where a connection stands.
#[derive(Clone, Copy, Debug, PartialEq, Eq)]
pub enum Phase {
    /// It is being accepted.
    Arriving,
    /// A partner that was greeted and isn't let in yet: when it is closed, and from when on it may be closed for another.
    Stranger(Millis, Millis),
    /// A partner that was let in at this moment, and waits for its session.
    Guest(Millis),
    /// A step of its session is being done.
    Stepping(Session),
    /// Its session is between two steps.
    Between(Session),
    /// Its last octets go out, until this moment.
    Parting(Millis),
    /// Its request isn't whole yet. It is closed at this moment.
    Asking(Millis),
    /// Its request is whole, and waits for its turn.
    Ready(Request, Rank),
    /// Its request is being carried out.
    Served(Request),
    /// It waits for the end of the call with this number.
    Calling(u64),
    /// It copies the database's files, until this moment at most.
    Copying(Millis),
    /// Its answer goes out: until when, and how many octets are left.
    Answered(Millis, u64),
    /// A call that isn't begun.
    Wanted(Call),
    /// A call whose partner's address is looked up.
    Resolving(Call),
    /// A call that is being connected, until this moment at most.
    Dialing(Call, Millis),
    /// A call that is up without a session, until this moment at most.
    Connected(Call, Millis),
}

#[derive(Clone, Copy, Debug, PartialEq, Eq)]
pub struct Connection {
    /// Its number, which no other connection has ever.
    pub id: u64,
    pub door: Door,
    pub phase: Phase,
}

/// What came of accepting a connection.
#[derive(Clone, Copy, Debug, PartialEq, Eq)]
pub enum Arrival {
    /// It is there.
    Somebody,
    /// Nobody waits any more.
    Nobody,
    /// The system had no descriptor or no memory for it.
    Later,
    /// The door failed for good.
    Never,
}

/// How a session ended.
#[derive(Clone, Copy, Debug, PartialEq, Eq)]
pub enum End {
    /// By the station's own ESID, which is to go out.
    Own,
    /// Otherwise: nothing is to go out.
    Other,
}

/// What a step of a session leaves.
#[derive(Clone, Copy, Debug, PartialEq, Eq)]
pub struct Step {
    /// How many octets it heard.
    pub heard: u32,
    pub input: Input,
    /// How many octets are to go out.
    pub backlog: u64,
}

/// What is told of a connection.
#[derive(Clone, Copy, Debug, PartialEq, Eq)]
pub enum Signal {
    /// A stranger's SSID was accepted.
    LetIn,
    /// A stranger was refused, and its ESID is to go out; or what a command sent is no request.
    Rejected,
    /// A request is whole.
    Asked(Request),
    /// A request for a call of this partner is whole.
    Wants(Partner),
    /// A step of its session is over, and the session goes on.
    Waits(Step),
    /// A step of its session is over, and so is the session.
    Ended(End),
    /// Its request is carried out, and its answer has so many octets. The time is to be told before: how long a look-up took counts.
    Done(u64),
    /// Octets came.
    Came,
    /// Octets went out, and so many are left.
    Went(u64),
    /// Its input has ended. One that copied the database's files is done with that.
    Ends,
    /// It is gone: nothing can be sent to it.
    Lost,
    /// The address of a call's partner is known.
    Resolved,
    /// A call is connected.
    Up,
    /// A call's partner can't be reached.
    Failed,
}

/// Why the station ends.
#[derive(Clone, Copy, Debug, PartialEq, Eq)]
pub enum Status {
    /// It has done its jobs, or was told to end.
    Stopped,
    /// A door failed for good.
    DoorFailed,
    /// The office failed.
    OfficeFailed,
}

/// What the shell tells.
#[derive(Clone, Copy, Debug, PartialEq, Eq)]
pub enum Event {
    /// Somebody waits at this door.
    Knock(Door),
    /// What came of accepting the connection with this number.
    Accepted(u64, Arrival),
    /// It is this moment now.
    Passed(Millis),
    /// This was told of the connection with this number.
    Told(u64, Signal),
    /// Something waits for this partner.
    Due(Partner),
    /// All for whom something waits were told.
    Reviewed,
    /// The station is to end.
    Over(Status),
}

/// Why a connection is closed.
#[derive(Clone, Copy, Debug, PartialEq, Eq)]
pub enum Reason {
    /// For another, who was accepted.
    Evicted,
    /// What it sent is no request.
    Invalid,
    /// Its time is over, and nothing came.
    TimedOut,
    /// Its time is over, and it didn't take what was sent.
    Stalled,
    /// Its input has ended.
    Quit,
    /// It was lost.
    Vanished,
    /// Its work is done.
    Finished,
    /// The partner of a call can't be reached.
    Unreached,
    /// The command that wanted a call is gone.
    Orphaned,
    /// The station ends.
    Stopping,
}

/// What the shell is to do.
#[derive(Clone, Copy, Debug, PartialEq, Eq)]
pub enum Action {
    /// Accept a connection at this door, which has this number from now on, and tell what came of it.
    Accept(u64, Door),
    /// Print the line of its session, which is over for this reason.
    Print(u64, Reason),
    /// Close it.
    Close(u64, Reason),
    /// Send what is left to go out, then end this direction, and drop what comes.
    Part(u64),
    /// Send it the answer that was made.
    Answer(u64),
    /// Answer it that what it asked for isn't done, for this reason.
    Decline(u64, Reason),
    /// Begin a session with it, and tell what its first step leaves.
    Begin(u64),
    /// Let its session hear a piece, and tell what that step leaves.
    Hear(u64),
    /// End its session as it stands.
    Cut(u64),
    /// Do its look-up, make its answer, and tell its length.
    Look(u64),
    /// Do its change, make its answer, and tell its length.
    Change(u64),
    /// Let it copy the database's files.
    Copy(u64),
    /// Look up for whom something waits, and tell each.
    Review,
    /// Look up the address of a call's partner.
    Resolve(u64),
    /// Connect a call.
    Dial(u64),
    /// Close the connection of a call, which goes on.
    HangUp(u64),
    /// Accept nobody any more.
    Shut,
    /// End the program.
    Exit(Status),
}

/// What is counted until the station ends.
#[derive(Clone, Copy, Debug, PartialEq, Eq)]
pub enum Counted {
    /// Jobs: sessions, callers who aren't let in, and commands.
    Jobs,
    /// Connections over HTTP, once they are closed.
    Connections,
}

/// How long things may take, in milliseconds, and how many there may be.
#[derive(Clone, Copy, Debug, PartialEq, Eq)]
pub struct Limits {
    /// How many connections each door may have.
    pub partners: u32,
    pub commands: u32,
    pub requests: u32,
    /// How long a stranger may take to be let in, and how long it stays in any case where the door is full.
    pub admission: u32,
    pub shelter: u32,
    /// How long a command may take to ask, and its answer without progress.
    pub asking: u32,
    /// The same over HTTP.
    pub requesting: u32,
    /// The longest wait in a session with a partner who called, and the longest such session.
    pub patience: u32,
    pub longest: u32,
    /// How long last octets may take to go out.
    pub farewell: u32,
    /// How long a backup may take.
    pub copying: u32,
    /// How long a call may take to connect, if a wait in its session may be as long. The second is how long it is up without a
    /// session.
    pub dialing: u32,
    pub standing: u32,
    /// How long a door rests for which the system had no descriptor or no memory.
    pub rest: u32,
    /// The interval of the clock. 0 is never.
    pub interval: u32,
    /// How many octets of a session are heard between two look-ups, while octets are there.
    pub share: u32,
    /// How many octets may be to go out in a session that hears more.
    pub backlog: u64,
    /// How many octets of answers are held while another look-up is begun.
    pub held: u64,
    /// How often a call may hang up, to give way to a guest or because its session didn't begin in time, and be made again.
    pub times: u32,
    /// How many octets a partner sends before it answers: its greeting (RFC 5024, section 5.3.1).
    pub greeting: u32,
    /// After how many jobs the station ends. 0 is never.
    pub jobs: u64,
    /// What counts as a job.
    pub counted: Counted,
}

/// What becomes of a connection.
#[derive(Clone, Copy, Debug, PartialEq, Eq)]
pub enum Reply {
    /// Nothing.
    Stay,
    /// It is in this phase.
    Become(Phase),
    /// It is in this phase, the last of those that are.
    Queue(Phase),
    /// It waits for a call of this partner.
    Want(Partner),
    /// Its answer goes out.
    Respond(Phase),
    /// It is told that what it asked for isn't done, and why.
    Refuse(Phase, Reason),
    /// Its call is connected next.
    Connect(Phase),
    /// Its call hangs up, and is made again.
    Redial(Phase),
    /// Its session ends as it stands, and its call is made again.
    Yield(Phase),
    /// Its session is over, and its last octets go out.
    Farewell(Phase),
    /// It is closed.
    Leave(Reason),
    /// Its session ends as it stands, and it is closed.
    Break(Reason),
}

/// The kinds of jobs that are done in turn.
#[derive(Clone, Copy, Debug, PartialEq, Eq)]
pub enum Kind {
    Queries,
    Sessions,
    Updates,
}

/// What is done next.
#[derive(Clone, Copy, Debug, PartialEq, Eq)]
pub enum Choice {
    Nothing,
    /// No job begins any more.
    Finish(Status),
    /// What becomes of a connection whose time is over, or that gives way. So of one whose command or whose call is gone, or that
    /// the end of the station concerns.
    Settle(u64, Reply),
    /// Somebody is accepted at a door.
    Admit(Door),
    /// It is looked up for whom something waits.
    Inspect,
    /// A session begins.
    Start(u64, Session),
    /// The session that goes on hears a piece.
    Proceed(u64, Session),
    /// A look-up is done.
    Consult(u64),
    /// A change is done.
    Perform(u64),
    /// A command copies the database's files.
    Lend(u64),
    /// A call is begun.
    Seek(u64, Call),
    /// The program ends.
    Depart(Status),
}

/// Whether somebody waits at a door.
#[derive(Clone, Copy, Debug, PartialEq, Eq)]
pub enum Gate {
    /// Nobody that was told.
    Quiet,
    /// Somebody.
    Knocked,
    /// Somebody, and it is asked again at this moment.
    Resting(Millis),
}

/// The clock that calls partners.
#[derive(Clone, Copy, Debug, PartialEq, Eq)]
pub enum Clock {
    /// It calls nobody.
    Off,
    /// It looks at this moment for whom something waits.
    At(Millis),
    /// It is looked up.
    Reviewing,
}

/// How far the station's life is.
#[derive(Clone, Copy, Debug, PartialEq, Eq)]
pub enum Course {
    /// It serves.
    Serving,
    /// It was told to end.
    Called(Status),
    /// No job begins any more.
    Ending(Status),
    /// It has ended.
    Past,
}
