//! Which calls there are: their numbers, and how many items the arrays of their payloads have.

ghost use Rattle.std.specs.Prelude.{◌≡◌, ◌+◌, pos, false, length, MatchOption};
ghost use Rattle.definitions.specs.Reading.{is_call_number};
ghost use Rattle.request_rules.specs.Requests.{call_kinds};
ghost use Rattle.daemon_wire.specs.Names.{number_of, kinds_named};

/// Which call a payload names.
#[derive(Clone, Copy)]
pub(crate) enum CallName {
    Start,
    End,
    Delete,
    Search,
    KvSet,
    KvGet,
    KvList,
    AliasSet,
    AliasDelete,
    AliasList,
    Status,
    /// An End that tells an author.
    AuthoredEnd,
    KvDelete,
}

/// The table of the calls: which one has this number, and how many items its array has, the number counted. No other
/// number is that of a call.
pub(crate) fn call_numbered(number: i128) -> Option<(CallName, u32)>
    ensures { MatchOption result (is_call_number call_kinds number ≡ false) (λ call. (number ≡ pos (number_of call.0)) × (call.1 ≡ 1 + length (kinds_named call.0))) }
{
    match number {
        1 => Some((CallName::Start, 5)),
        2 => Some((CallName::End, 4)),
        3 => Some((CallName::Delete, 2)),
        4 => Some((CallName::Search, 8)),
        5 => Some((CallName::KvSet, 4)),
        6 => Some((CallName::KvGet, 3)),
        7 => Some((CallName::KvList, 4)),
        8 => Some((CallName::AliasSet, 3)),
        9 => Some((CallName::AliasDelete, 2)),
        10 => Some((CallName::AliasList, 3)),
        11 => Some((CallName::Status, 1)),
        12 => Some((CallName::AuthoredEnd, 5)),
        13 => Some((CallName::KvDelete, 3)),
        _ => None,
    }
}
