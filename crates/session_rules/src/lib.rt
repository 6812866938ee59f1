//! Sessions: what one of several callers of a store was asked and answered, each at a point of one
//! journal, in frames or over HTTP; passes, which take turns at it; the bytes of replies; and the laws
//! of these words alone.
//!
//! A session names no other one. That sessions of different numbers share one journal and don't
//! overlap is a law. The words for calls and steps are those of `step_rules`, and those for what a
//! payload spells are those of `request_rules`.
//!
//! Each function has an empty body, and its contract is the law that its name says.
#![tactic(auto)]

ghost use Rattle.session_rules.specs.Laws.{EachIsAnswered, RepliesAtPoints, PointsFollow, OnlyStoredCommits, CommitsAreOwn, SessionsDontOverlap, OthersLeaveIt, TurnMakesLonger, SessionsFollow, SessionBegins, PayloadIsRead, PayloadsAreRead, FramesGetCallReplies, BadRequestIsTold, TurnsFollow, RandomFaultsAreDraws, PassGrowsByItsOwn, PassStays, MovesFollow, PassKnowsItself, DiskFaultsAreCounted, SplitStartsAnew, NumbersRise, SpentForGood, JoinKeepsBoth, FirstPassFinds, TurnMovesPass, TakeAndGiveAreATurn, OthersFindIt, TurnAddsOwn, TurnMayBeGiven, SplitFinds, JoinFinds, PassHistoryBegins, PassGoesOn, JoinGoesOn, RunIsSession, RunCountsFaults, RunLeavesOne, RepliesAreShort, TurnAnswersOwner, OwnersAnsweredAlike, DiskFaultsHaveCauses, HttpUsesNothing, RequestsGetResponses};
ghost use Rattle.session_rules.specs.Examples.{WorkedReplies, WorkedSessions, WorkedPages, WorkedReading, WorkedPass, WorkedBook, WorkedRuns, WorkedHttp};

/// Each request of a session gets one reply.
pub fn each_is_answered()
    ensures { EachIsAnswered }
{}

/// Each reply is what its call is told at the point of the journal that the reply names: what the step
/// or the growth gives there, or one of the answers that may stand in its place.
pub fn replies_at_points()
    ensures { RepliesAtPoints }
{}

/// The points follow one another, between what was seen at the opening and the journal's end.
pub fn points_follow()
    ensures { PointsFollow }
{}

/// A reply that tells of nothing that was stored commits nothing: a refusal, a read, and what failed.
pub fn only_what_is_stored_commits()
    ensures { OnlyStoredCommits }
{}

/// What a session commits has its number.
pub fn commits_are_own()
    ensures { CommitsAreOwn }
{}

/// No entry is committed by two sessions of different numbers.
pub fn sessions_dont_overlap()
    ensures { SessionsDontOverlap }
{}

/// What others add behind the journal leaves the session as it is.
pub fn others_leave_it()
    ensures { OthersLeaveIt }
{}

/// A turn makes the session of its pass longer by one request and its answer, whatever others added since
/// the reply before: a call, a page, a read, or what asks the store nothing.
pub fn turn_makes_longer()
    ensures { TurnMakesLonger }
{}

/// Two sessions of one number, the second from where the first ended, are one: so the sessions of a worker's
/// connections are the session of its pass, each with its calls numbered from 1.
pub fn sessions_follow()
    ensures { SessionsFollow }
{}

/// A session begins at any journal.
pub fn session_begins()
    ensures { SessionBegins }
{}

/// Each payload is one request: the call that it spells, or a place where it goes wrong.
pub fn a_payload_is_one_request()
    ensures { PayloadIsRead }
{}

/// A list of payloads is one list of requests, item by item.
pub fn payloads_are_requests()
    ensures { PayloadsAreRead }
{}

/// What is asked by payloads is answered as calls are: a page comes by no payload.
pub fn frames_get_call_replies()
    ensures { FramesGetCallReplies }
{}

/// A bad request is told only where no call is read, with the place. There it is told, or want of memory.
pub fn a_bad_request_is_told()
    ensures { BadRequestIsTold }
{}

/// A fault of the random source is told as often as a draw failed.
pub fn random_faults_are_failed_draws()
    ensures { RandomFaultsAreDraws }
{}

/// The turns of two runs of replies, one after the other, are those of both.
pub fn turns_follow()
    ensures { TurnsFollow }
{}

/// What a pass has committed grows by the entries of its own number among those that it sees.
pub fn pass_grows_by_its_own()
    ensures { PassGrowsByItsOwn }
{}

/// What a call leaves of a pass holds of a pass that stays.
pub fn a_pass_may_stay()
    ensures { PassStays }
{}

/// What a call leaves of a pass, a run of calls leaves of it.
pub fn moves_follow()
    ensures { MovesFollow }
{}

/// A pass that knows of its own number goes on to know of it.
pub fn a_pass_knows_itself()
    ensures { PassKnowsItself }
{}

/// For each fault of the disk that is told the pass counted one.
pub fn disk_faults_are_counted()
    ensures { DiskFaultsAreCounted }
{}

/// A pass that is split off has all that the other had seen and counted, no commits of its own, and
/// another number.
pub fn a_split_starts_anew()
    ensures { SplitStartsAnew }
{}

/// No two passes that are split off one pass have one number: the numbers rise.
pub fn numbers_rise()
    ensures { NumbersRise }
{}

/// Where no number was left, none is left later.
pub fn spent_is_for_good()
    ensures { SpentForGood }
{}

/// A join keeps the longer of what both had seen and the greater of what they had counted.
pub fn a_join_keeps_both()
    ensures { JoinKeepsBoth }
{}

/// The pass with which a book begins to be shared finds that book, knows of itself, and has committed
/// nothing, where no entry has its number.
pub fn the_first_pass_finds_its_book()
    ensures { FirstPassFinds }
{}

/// A turn at the book leaves what any call leaves of a pass, and adds one item to its turns, a failed one
/// only where a fault was counted. And the pass finds the book that it left.
pub fn a_turn_moves_its_pass()
    ensures { TurnMovesPass }
{}

/// What is taken and given is one turn.
pub fn take_and_give_are_a_turn()
    ensures { TakeAndGiveAreATurn }
{}

/// A pass that finds a book finds it later too, with all that it had seen and counted, whatever passes of
/// other numbers leave: at its next turn, and when it closes.
pub fn others_find_what_a_turn_left()
    ensures { OthersFindIt }
{}

/// A turn settles what was in doubt, as entries of no pass, or nothing of it, and puts behind only
/// entries of its caller; and it leaves in doubt what was in doubt, or entries of its caller.
pub fn a_turn_adds_its_own()
    ensures { TurnAddsOwn }
{}

/// So its pass may leave what a turn makes of the entries.
pub fn a_turn_may_be_given()
    ensures { TurnMayBeGiven }
{}

/// A pass that is split off finds the book, where no entry of it has the number.
pub fn a_split_finds_the_book()
    ensures { SplitFinds }
{}

/// Where one of two passes that find a book is joined to the other, the joined pass finds it.
pub fn a_join_finds_the_book()
    ensures { JoinFinds }
{}

/// What a pass was asked and answered begins with nothing, at any pass.
pub fn a_pass_begins()
    ensures { PassHistoryBegins }
{}

/// Where a pass takes a turn in which the store of its fixed part answers a request, the session of the pass
/// and its turns get longer by that reply.
pub fn a_turn_of_a_pass_goes_on()
    ensures { PassGoesOn }
{}

/// They stay so where another pass of that book is joined to it.
pub fn a_join_goes_on()
    ensures { JoinGoesOn }
{}

/// A run of a store's turns is a session, from the list that it found to the one that it leaves.
pub fn a_run_is_a_session()
    ensures { RunIsSession }
{}

/// For each fault of the disk that a run tells one was counted.
pub fn a_run_counts_its_faults()
    ensures { RunCountsFaults }
{}

/// A run leaves one list and one doubt, given what was asked, used and replied in each turn, and what stayed in
/// doubt where a fault was told: a commit that failed is lost or in doubt, and no reply says which.
pub fn a_run_leaves_one_store()
    ensures { RunLeavesOne }
{}

/// The reply to a call that may be asked has fewer than 2^31 bytes, at a sound journal whose records open to no
/// more texts than they weigh.
pub fn replies_are_short()
    ensures { RepliesAreShort }
{}

/// A turn of an owner's request in which nothing went wrong, at a journal with nothing in doubt, answers
/// what the owner is told there.
pub fn a_turn_answers_its_owner()
    ensures { TurnAnswersOwner }
{}

/// So an owner is answered alike wherever the owner has the same, whatever others have.
pub fn owners_are_answered_alike()
    ensures { OwnersAnsweredAlike }
{}

/// A fault of the disk is told only to a call that writes, to a page that comes and to a page that is
/// read.
pub fn disk_faults_have_causes()
    ensures { DiskFaultsHaveCauses }
{}

/// Requests of HTTP use neither the clock nor random bytes.
pub fn http_uses_nothing()
    ensures { HttpUsesNothing }
{}

/// Each request of HTTP gets one response, whose code is 500 exactly where a fault of the disk is told.
pub fn requests_get_responses()
    ensures { RequestsGetResponses }
{}

/// Replies in bytes, worked out.
pub fn worked_replies()
    ensures { WorkedReplies }
{}

/// Two sessions in one journal, worked out: the second was served first. And a request that is no call,
/// and the turns of a pass.
pub fn worked_sessions()
    ensures { WorkedSessions }
{}

/// A session that is asked a call and pages, worked out.
pub fn worked_pages()
    ensures { WorkedPages }
{}

/// What is read of payloads, worked out.
pub fn worked_reading()
    ensures { WorkedReading }
{}

/// A pass, worked out: which entries are its own, its turns, how it moves, is split and is joined.
pub fn worked_pass()
    ensures { WorkedPass }
{}

/// A book that two passes share, worked out: what each finds and leaves, and a turn in which a fault was
/// counted.
pub fn worked_book()
    ensures { WorkedBook }
{}

/// A run of a store's turns, worked out: a page whose commit stays in doubt, a status, and the page again, which
/// is settled first; the same where the commit is lost; and a fault that wasn't counted.
pub fn worked_runs()
    ensures { WorkedRuns }
{}

/// A session over HTTP, worked out: a page that is posted, a status and a page that are got, a request
/// without a path, and what is told where the disk fails or memory is wanting.
pub fn worked_http()
    ensures { WorkedHttp }
{}
