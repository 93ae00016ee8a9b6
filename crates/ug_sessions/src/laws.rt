// What follows for one session, whatever is said and sent.
ghost use Rattle.std.specs.Prelude.{◌≡◌, ◌⊎◌, true, ◌<◌, ◌≤◌, List, [], ◌∷◌, ℕ, Bool, ◌++◌, cond, Some, None};
ghost use Rattle.ug_links.specs.declared.step.LinkStep.{LinkStep};
ghost use Rattle.ug_links.specs.Talk.{Path, AreSteps};
ghost use Rattle.ug_links.specs.Steps.{ids_end};
ghost use Rattle.ug_sessions.specs.Known.{AreCallsBelow, AreSound};
ghost use Rattle.ug_sessions.specs.Counting.{counted_over};
ghost use Rattle.ug_sessions.specs.States.{ServerState};
ghost use Rattle.ug_sessions.specs.Serving.{turning, flushing};
ghost use Rattle.ug_links.specs.declared.waiter.LinkId.{LinkId};
ghost use Rattle.ug_types.specs.Principals.{Named};
ghost use Rattle.ug_links.specs.declared.waiter.Ready.{Ready};
ghost use Rattle.ug_types.specs.declared.access.Section.{Section};
ghost use Rattle.ug_sessions.specs.Reading.{reading_all, reading_one};
ghost use Rattle.ug_sessions.specs.Tried.{AllAccepted, AllRead, IsOneRead, IsOneTried};
ghost use Rattle.ug_sessions.specs.declared.session.Session.{Session};
ghost use Rattle.ug_sessions.specs.declared.session.Turn.{Turn};
ghost use Rattle.ug_sessions.specs.Due.{Dues, over_due, Accounts, Answered, Watched, Noticed, Said, said_one, sent_to, overlong_all, AllAccounts, HaveOwnIds};
ghost use Rattle.ug_sessions.specs.Answering.{Each, RefusesIf, is_due, AnswersOne, WatchesOne, NoticesOne, GivesUpOne, HandsOne, HandsFirst, Passes};
ghost use Rattle.ug_sessions.specs.Tied.{AcceptsNone, AreTied, Flushes, IsTied, IsWhose, TriesDue};
ghost use Rattle.ug_sessions.specs.Waiting.{lines_waiting};
ghost use Rattle.ug_sessions.specs.Accepting.{accepting_all};
ghost use Rattle.ug_sessions.specs.Arriving.{AreArrivals, CountsTurn};
ghost use Rattle.ug_sessions.specs.declared.session.Listener.{Listener};
ghost use Rattle.ug_sessions.specs.Handed.{HoldsLines, bytes_read};
ghost use Rattle.ug_sessions.specs.Sessions.{is_open_session, new_session, none_counted};
ghost use Rattle.ug_sessions.specs.Sending.{flushing_one, flushing_all, EndsWaiting};

/// What a session was sent, followed by its unsent text while it is open, is its due text; once it is closed, what it was
/// sent is a front of it. Whatever is said to it keeps that.
pub fn saying_keeps_account()
    ensures answers { (holds : Section → Named → Bool) (id : LinkId) (text : List ℕ) (a : Dues)
        (sent : List ℕ) (s t : Session)
        → AnswersOne id text s t → Accounts a sent s
        → Accounts (said_one holds s.id s.principal a (Answered id text)) sent t }
    ensures watches { (holds : Section → Named → Bool) (id : LinkId) (a : Dues) (sent : List ℕ)
        (s t : Session)
        → WatchesOne id s t → Accounts a sent s
        → Accounts (said_one holds s.id s.principal a (Watched id)) sent t }
    ensures notices { (holds : Section → Named → Bool) (section : Section) (text : List ℕ)
        (a : Dues) (sent : List ℕ) (s t : Session)
        → NoticesOne (holds section) text s t → Accounts a sent s
        → Accounts (said_one holds s.id s.principal a (Noticed section text)) sent t }
    ensures gives_up { (id : LinkId) (a : Dues) (sent : List ℕ) (s t : Session)
        → GivesUpOne id s t → Accounts a sent s → Accounts a sent t }
{}

/// The refusal of a line that is too long keeps it: it stands in the due text where it is put.
pub fn refusing_keeps_account()
    ensures { (a : Dues) (sent : List ℕ) (s t : Session)
        → RefusesIf (is_due s) s t → Accounts a sent s
        → Accounts (cond (is_due s) (over_due a) a) sent t }
{}

/// What is said to sessions keeps the accounts of all of them.
pub fn saying_keeps_accounts()
    ensures answers { (holds : Section → Named → Bool) (steps : List LinkStep) (said : List Said)
        (id : LinkId) (text : List ℕ) (ss ts : List Session)
        → Each (AnswersOne id text) ss ts → AllAccounts holds steps said ss
        → AllAccounts holds steps (said ++ Answered id text ∷ []) ts }
    ensures watches { (holds : Section → Named → Bool) (steps : List LinkStep) (said : List Said)
        (id : LinkId) (ss ts : List Session)
        → Each (WatchesOne id) ss ts → AllAccounts holds steps said ss
        → AllAccounts holds steps (said ++ Watched id ∷ []) ts }
    ensures notices { (holds : Section → Named → Bool) (steps : List LinkStep) (said : List Said)
        (section : Section) (text : List ℕ) (ss ts : List Session)
        → Each (NoticesOne (holds section) text) ss ts → AllAccounts holds steps said ss
        → AllAccounts holds steps (said ++ Noticed section text ∷ []) ts }
{}

/// A flush keeps it too: what it sends stood in front of what was unsent.
pub fn sending_keeps_account()
    ensures { (a : Dues) (sent : List ℕ) (s : Session) (turn : Turn) (steps : List LinkStep)
        (r : Session × Turn)
        → Path (flushing_one s turn) steps r → Accounts a sent s
        → Accounts a (sent ++ sent_to s.id steps) r.0 }
{}

/// The same over all sessions, where no two have one id: the calls of one session send nothing to another.
pub fn flushing_keeps_accounts()
    ensures { (holds : Section → Named → Bool) (before : List LinkStep) (said : List Said)
        (sessions : List Session) (turn : Turn) (steps : List LinkStep) (r : List Session × Turn)
        → HaveOwnIds sessions → AllAccounts holds before said sessions
        → Path (flushing_all sessions turn) steps r → AllAccounts holds (before ++ steps) said r.0 }
{}

/// No session is read but those that are open, whose link hasn't said End, and that are named or owed a try.
pub fn reading_tries_no_other()
    ensures { (ready : List Ready) (sessions : List Session) (turn : Turn) (steps : List LinkStep)
        (r : List Session × Turn)
        → Path (reading_all ready sessions turn) steps r
        → AllRead (IsOneRead ready sessions) steps }
{}

/// What is read keeps the accounts of all sessions: nothing is sent, and a session that is closed was sent a front of what was due.
pub fn reading_keeps_accounts()
    ensures { (holds : Section → Named → Bool) (before : List LinkStep) (said : List Said)
        (ready : List Ready) (sessions : List Session) (turn : Turn) (steps : List LinkStep)
        (r : List Session × Turn)
        → AllAccounts holds before said sessions → Path (reading_all ready sessions turn) steps r
        → AllAccounts holds (before ++ steps) said r.0 }
{}

/// A session's lines are handed out in order, each once, and none is made up; nothing that is said to it changes that. Lines are
/// lost only where it is closed for backlog or for want of memory.
pub fn handing_keeps_lines()
    ensures begins { (id : LinkId) (principal : Named)
        → HoldsLines [] [] (new_session id principal) }
    ensures hands { (handed : List (List ℕ)) (bytes line : List ℕ) (s t : Session)
        → HandsOne s (Some line) t → HoldsLines handed bytes s
        → HoldsLines (handed ++ line ∷ []) bytes t }
    ensures passes { (handed : List (List ℕ)) (bytes : List ℕ) (s t : Session)
        → HandsOne s None t → HoldsLines handed bytes s → HoldsLines handed bytes t }
    ensures answers { (handed : List (List ℕ)) (bytes : List ℕ) (id : LinkId) (text : List ℕ)
        (s t : Session)
        → AnswersOne id text s t → HoldsLines handed bytes s → HoldsLines handed bytes t }
    ensures watches { (handed : List (List ℕ)) (bytes : List ℕ) (id : LinkId) (s t : Session)
        → WatchesOne id s t → HoldsLines handed bytes s → HoldsLines handed bytes t }
    ensures notices { (handed : List (List ℕ)) (bytes : List ℕ) (holds : Named → Bool)
        (text : List ℕ) (s t : Session)
        → NoticesOne holds text s t → HoldsLines handed bytes s → HoldsLines handed bytes t }
    ensures gives_up { (handed : List (List ℕ)) (bytes : List ℕ) (id : LinkId) (s t : Session)
        → GivesUpOne id s t → HoldsLines handed bytes s → HoldsLines handed bytes t }
{}

/// What is read of a session goes on with its lines, however the bytes are cut.
pub fn reading_keeps_lines()
    ensures { (ready : List Ready) (s : Session) (turn : Turn) (steps : List LinkStep)
        (r : Session × Turn)
        → Path (reading_one ready s turn) steps r → (handed : List (List ℕ)) (bytes : List ℕ)
        → HoldsLines handed bytes s → HoldsLines handed (bytes ++ bytes_read s.id steps) r.0 }
{}

/// A flush reads nothing, and leaves the lines.
pub fn flushing_keeps_lines()
    ensures reads { (s : Session) (turn : Turn) (steps : List LinkStep) (r : Session × Turn)
        → Path (flushing_one s turn) steps r → (id : LinkId) → bytes_read id steps ≡ [] }
    ensures keeps { (s : Session) (turn : Turn) (steps : List LinkStep) (r : Session × Turn)
        → Path (flushing_one s turn) steps r → (handed : List (List ℕ)) (bytes : List ℕ)
        → HoldsLines handed bytes s → HoldsLines handed bytes r.0 }
{}

/// Asking for requests comes to an end: a request that is handed out is a line less, and what is said to sessions adds none.
pub fn handing_out_ends()
    ensures hands { (ss ts : List Session) (id : LinkId) (principal : Named) (line : List ℕ)
        → HandsFirst ss id principal line ts → lines_waiting ts < lines_waiting ss }
    ensures answers { (id : LinkId) (text : List ℕ) (ss ts : List Session)
        → Each (AnswersOne id text) ss ts → lines_waiting ts ≤ lines_waiting ss }
    ensures watches { (id : LinkId) (ss ts : List Session)
        → Each (WatchesOne id) ss ts → lines_waiting ts ≤ lines_waiting ss }
    ensures notices { (holds : Named → Bool) (text : List ℕ) (ss ts : List Session)
        → Each (NoticesOne holds text) ss ts → lines_waiting ts ≤ lines_waiting ss }
    ensures gives_up { (id : LinkId) (ss ts : List Session)
        → Each (GivesUpOne id) ss ts → lines_waiting ts ≤ lines_waiting ss }
{}

/// No listener is tried but those that are named or owed a try.
pub fn accepting_tries_no_other()
    ensures { (ready : List Ready) (listeners : List Listener) (x : List Session × Turn)
        (steps : List LinkStep) (r : List Listener × (List Session × Turn))
        → Path (accepting_all ready listeners x) steps r
        → AllAccepted (IsOneTried ready listeners) steps }
{}

/// Handing out a request keeps the accounts of all sessions, where no two have one id: each that is passed at its limit is told
/// so. Giving a session up keeps them too.
pub fn handing_keeps_accounts()
    ensures hands { (holds : Section → Named → Bool) (steps : List LinkStep) (said : List Said)
        (ss ts : List Session) (id : LinkId) (principal : Named) (line : List ℕ)
        → HaveOwnIds ss → (h : HandsFirst ss id principal line ts)
        → AllAccounts holds steps said ss
        → AllAccounts holds steps (said ++ overlong_all h.front) ts }
    ensures passes { (holds : Section → Named → Bool) (steps : List LinkStep) (said : List Said)
        (ss ts : List Session)
        → HaveOwnIds ss → Each Passes ss ts
        → AllAccounts holds steps said ss → AllAccounts holds steps (said ++ overlong_all ss) ts }
    ensures gives_up { (holds : Section → Named → Bool) (steps : List LinkStep) (said : List Said)
        (id : LinkId) (ss ts : List Session)
        → Each (GivesUpOne id) ss ts → AllAccounts holds steps said ss
        → AllAccounts holds steps said ts }
{}

/// Accepting keeps the accounts of all sessions; a new session has an id that no other had, and nothing is due to it.
pub fn accepting_keeps_accounts()
    ensures { (holds : Section → Named → Bool) (before : List LinkStep) (said : List Said)
        (handed : List (LinkId × List ℕ)) (ready : List Ready) (listeners : List Listener)
        (x : List Session × Turn) (steps : List LinkStep)
        (r : List Listener × (List Session × Turn))
        → AreSteps before steps → Path (accepting_all ready listeners x) steps r
        → AreSound holds before said handed x.0
        → AreSound holds (before ++ steps) said handed r.1.0 }
{}

/// Every call of the server keeps accounts and lines of all sessions, and with them that no two have one id: a whole turn, a whole
/// flush, and what is handed out and said between, to sessions that came.
pub fn calls_keep_all()
    ensures begins { (holds : Section → Named → Bool) (steps : List LinkStep)
        → AreCallsBelow (ids_end steps) steps → AreSound holds steps [] [] [] }
    ensures turns { (holds : Section → Named → Bool) (said : List Said)
        (handed : List (LinkId × List ℕ)) (ready : List Ready)
        (before : List LinkStep) (v : ServerState) (steps : List LinkStep) (r : ServerState × Turn)
        → AreSteps before steps → Path (turning ready v) steps r
        → AreSound holds before said handed v.sessions
        → AreSound holds (before ++ steps) said handed r.0.sessions }
    ensures flushes { (holds : Section → Named → Bool) (said : List Said)
        (handed : List (LinkId × List ℕ))
        (before : List LinkStep) (v : ServerState) (steps : List LinkStep) (r : ServerState × Turn)
        → Path (flushing v) steps r
        → AreSound holds before said handed v.sessions
        → AreSound holds (before ++ steps) said handed r.0.sessions }
    ensures hands { (holds : Section → Named → Bool) (steps : List LinkStep) (said : List Said)
        (handed : List (LinkId × List ℕ))
        (ss ts : List Session) (id : LinkId) (principal : Named) (line : List ℕ)
        → (h : HandsFirst ss id principal line ts)
        → AreSound holds steps said handed ss → AreSound holds steps (said ++ overlong_all h.front)
        (handed ++ (id, line) ∷ []) ts }
    ensures passes { (holds : Section → Named → Bool) (steps : List LinkStep) (said : List Said)
        (handed : List (LinkId × List ℕ)) (ss ts : List Session)
        → Each Passes ss ts
        → AreSound holds steps said handed ss
        → AreSound holds steps (said ++ overlong_all ss) handed ts }
    ensures answers { (holds : Section → Named → Bool) (steps : List LinkStep) (said : List Said)
        (handed : List (LinkId × List ℕ))
        (id : LinkId) (text : List ℕ) (ss ts : List Session)
        → id.0 < ids_end steps → Each (AnswersOne id text) ss ts
        → AreSound holds steps said handed ss
        → AreSound holds steps (said ++ Answered id text ∷ []) handed ts }
    ensures watches { (holds : Section → Named → Bool) (steps : List LinkStep) (said : List Said)
        (handed : List (LinkId × List ℕ))
        (id : LinkId) (ss ts : List Session)
        → id.0 < ids_end steps → Each (WatchesOne id) ss ts
        → AreSound holds steps said handed ss
        → AreSound holds steps (said ++ Watched id ∷ []) handed ts }
    ensures notices { (holds : Section → Named → Bool) (steps : List LinkStep) (said : List Said)
        (handed : List (LinkId × List ℕ))
        (section : Section) (text : List ℕ) (ss ts : List Session)
        → Each (NoticesOne (holds section) text) ss ts
        → AreSound holds steps said handed ss
        → AreSound holds steps (said ++ Noticed section text ∷ []) handed ts }
    ensures gives_up { (holds : Section → Named → Bool) (steps : List LinkStep) (said : List Said)
        (handed : List (LinkId × List ℕ))
        (id : LinkId) (ss ts : List Session)
        → Each (GivesUpOne id) ss ts
        → AreSound holds steps said handed ss → AreSound holds steps said handed ts }
{}

/// Whatever calls were made before: a turn tries each listener and each session that is named or is owed a try by the last answer, up
/// to its limit, and no other. A flush writes to each open session until all is sent, or its link isn't ready or fails, and closes it
/// just where its link failed, or where all is sent and it is done for. Every call leaves each session its listener's principal's,
/// and what is owed and ended what the last answers say; a line is handed out for the principal at whose listener its session came.
pub fn calls_keep_tied()
    ensures begins { (calls : List LinkStep) (v : ServerState)
        → v.listeners ≡ [] → v.sessions ≡ [] → AcceptsNone calls → IsTied calls v }
    ensures turns { (holds : Section → Named → Bool) (said : List Said)
        (handed : List (LinkId × List ℕ)) (ready : List Ready)
        (calls : List LinkStep) (v : ServerState) (steps : List LinkStep) (r : ServerState × Turn)
        → AreSteps calls steps → AreSound holds calls said handed v.sessions → IsTied calls v
        → Path (turning ready v) steps r
        → TriesDue ready calls v steps r.0 × IsTied (calls ++ steps) r.0 }
    ensures flushes { (calls : List LinkStep) (v : ServerState) (steps : List LinkStep)
        (r : ServerState × Turn)
        → AreSteps calls steps → IsTied calls v → Path (flushing v) steps r
        → Flushes calls v steps r.0 r.1 × IsTied (calls ++ steps) r.0 }
    ensures hands { (principals : List Named) (calls : List LinkStep) (ss ts : List Session)
        (id : LinkId) (principal : Named) (line : List ℕ)
        → HandsFirst ss id principal line ts → AreTied principals calls ss
        → IsWhose principals calls id principal × AreTied principals calls ts }
    ensures passes { (principals : List Named) (calls : List LinkStep) (ss ts : List Session)
        → Each Passes ss ts → AreTied principals calls ss → AreTied principals calls ts }
    ensures answers { (principals : List Named) (calls : List LinkStep) (id : LinkId)
        (text : List ℕ) (ss ts : List Session)
        → Each (AnswersOne id text) ss ts
        → AreTied principals calls ss → AreTied principals calls ts }
    ensures watches { (principals : List Named) (calls : List LinkStep) (id : LinkId)
        (ss ts : List Session)
        → Each (WatchesOne id) ss ts → AreTied principals calls ss → AreTied principals calls ts }
    ensures notices { (principals : List Named) (calls : List LinkStep) (holds : Named → Bool)
        (text : List ℕ) (ss ts : List Session)
        → Each (NoticesOne holds text) ss ts
        → AreTied principals calls ss → AreTied principals calls ts }
    ensures gives_up { (principals : List Named) (calls : List LinkStep) (id : LinkId)
        (ss ts : List Session)
        → Each (GivesUpOne id) ss ts → AreTied principals calls ss → AreTied principals calls ts }
{}

/// Where sessions are read, and where they are flushed, the counts are those before and one more for each session whose link is
/// closed there, for what it was closed, and no other.
pub fn closings_are_counted()
    ensures reads { (ready : List Ready) (sessions : List Session) (turn : Turn)
        (steps : List LinkStep) (r : List Session × Turn)
        → Path (reading_all ready sessions turn) steps r → r.1 ≡ counted_over sessions r.0 turn }
    ensures flushes { (sessions : List Session) (turn : Turn) (steps : List LinkStep)
        (r : List Session × Turn)
        → Path (flushing_all sessions turn) steps r → r.1 ≡ counted_over sessions r.0 turn }
{}

/// Accepting counts each who came once: as accepted, whose session is new; as busy, where 64 sessions were open, and only there; or
/// for want of memory. It counts each accept that failed or was refused memory, and nothing else.
pub fn accepting_is_counted()
    ensures { (ready : List Ready) (listeners : List Listener) (sessions : List Session)
        (steps : List LinkStep) (r : List Listener × (List Session × Turn))
        → Path (accepting_all ready listeners (sessions, none_counted)) steps r
        → AreArrivals sessions steps r.1.0 r.1.1 }
{}

/// A whole turn counts so, and then each session whose link it closes.
pub fn turns_are_counted()
    ensures { (ready : List Ready) (v : ServerState) (steps : List LinkStep)
        (r : ServerState × Turn)
        → Path (turning ready v) steps r → CountsTurn ready v steps r.0 r.1 }
{}

/// Where a flush leaves a session open, nothing of it is unsent, or the last call was a write of all that is, and the link wasn't
/// ready.
pub fn flushing_sends_all()
    ensures { (s : Session) (turn : Turn) (before steps : List LinkStep) (r : Session × Turn)
        → AreSteps before steps → Path (flushing_one s turn) steps r
        → is_open_session r.0 ≡ true → (r.0.unsent ≡ []) ⊎ EndsWaiting s.id r.0.unsent steps }
{}
