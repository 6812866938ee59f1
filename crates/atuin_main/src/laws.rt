//! Why the program ends by its number. Each function has an empty body, and its contract is the law that its name says.

ghost use Rattle.atuin_main.specs.Causes.{TellsCause, EndsByStatus};
ghost use Rattle.atuin_main.specs.Exact.{EachCauseIsTold};

/// Whatever [`run_once`](crate::run_once) does by its contract, the number that it ends by tells why. By 0 the command did all
/// that it says, by 2 the words are none, and by 3 the text of a key that is read tells none, and all is as it was. By 4, 5, 6
/// and 12 the count of the source, the sink, a disk or the random source rose, each of a command that asks it: 4 comes of
/// `pipe` alone and 12 of `init` alone, and by 6 `pipe` left source and sink alone. By 8, 9 and 19 a disk shows a damaged log,
/// no log, or one of the old form, where it tells. By 13 the source ends within a frame or names one that is too long, and by
/// 14 it has as many as a session answers, where it tells. 11 tells nothing.
pub fn each_number_tells_its_cause()
    ensures { TellsCause }
{}

/// No command ends by any other number than one of a [`Status`](statuses::Status).
pub fn each_number_is_of_a_status()
    ensures { EndsByStatus }
{}

/// And each cause tells its number. Where the words are no command, it is 2; where a key's text is read and tells none, 3. Where
/// both disks tell what they show, a damaged log is told by 8, a log of the old form by 19, and a disk that isn't what the
/// command needs by 9, if no text of a key was refused before, no disk and no random source failed, and memory wasn't wanting.
pub fn each_cause_is_told()
    ensures { EachCauseIsTold }
{}
