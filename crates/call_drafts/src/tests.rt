ghost use Rattle.std.specs.Prelude.{◌≡◌, IfOk, false};
ghost use Rattle.model_words.specs.Seen.{call_seen};
ghost use Rattle.step_rules.specs.Calls.{is_read};

use super::*;
use alias_view::AliasView;
use history_view::HistoryView;
use kv_view::KvView;
use payload_forms::Payload;
use plain_types::Text;
use record_model::{Call, Refusal, Started};
use started_commands::StartedCommands;
use std::alloc::Global;
use std::test::Fail;

fn ls(alloc: Global, id: u128) -> Result<Started, Fail>
    ensures { IfOk result (λ s. s.id ≡ id) }
{
    Ok(Started {
        id,
        timestamp: 1,
        command: Text::copied(alloc, b"ls")?,
        cwd: Text::copied(alloc, b"/")?,
        session: Text::copied(alloc, b"s1")?,
        hostname: Text::copied(alloc, b"h:u")?,
    })
}

fn nothing_kept(alloc: Global) -> Kept {
    Kept {
        commands: StartedCommands::new(alloc),
        history: HistoryView::new(alloc),
        pairs: KvView::new(alloc),
        aliases: AliasView::new(alloc),
    }
}

/// The id that isn't there, where one was told.
fn unknown_id(drafted: &Result<Draft, Refusal>) -> Option<u128> {
    match drafted {
        Err(Refusal::UnknownId { id }) => Some(*id),
        _ => None,
    }
}

/// How long the command ran that a draft ends, where it ends one.
fn ended_after(drafted: &Result<Draft, Refusal>) -> Option<i64> {
    match drafted {
        Ok(
            Draft::Record {
                closes: Some(7),
                payload: Payload::HistoryCreate(h),
            },
        ) => Some(h.duration),
        _ => None,
    }
}

/// What is kept where the command 7 runs.
fn seven_runs(alloc: Global) -> Result<Kept, Fail> {
    let mut kept = nothing_kept(alloc);
    kept.commands.reserve(7)?;
    if !kept.commands.is_known(7) {
        kept.commands.start(ls(alloc, 7)?);
    }
    Ok(kept)
}

/// The end of the command 7 after five nanoseconds.
fn end_of_seven() -> Call
    ensures { is_read (call_seen result) ≡ false }
{
    Call::End {
        id: 7,
        duration: 5,
        exit: 1,
        author: None,
    }
}

#[test]
fn what_does_not_run_cannot_be_ended(rt: HostRuntime) -> Result<(), Fail> {
    let kept = nothing_kept(rt.alloc());
    let missing = draft(rt.alloc(), &kept, &end_of_seven());
    assert!(rt; unknown_id(&missing) == Some(7));
    Ok(())
}

#[test]
fn a_running_command_can_be_ended(rt: HostRuntime) -> Result<(), Fail> {
    let kept = seven_runs(rt.alloc())?;
    let ends = draft(rt.alloc(), &kept, &end_of_seven());
    assert!(rt; ended_after(&ends) == Some(5));
    Ok(())
}

#[test]
fn a_running_command_cannot_be_deleted(rt: HostRuntime) -> Result<(), Fail> {
    let kept = seven_runs(rt.alloc())?;
    let deletion = draft(rt.alloc(), &kept, &Call::Delete { id: 7 });
    assert!(rt; unknown_id(&deletion) == Some(7));
    Ok(())
}

#[test]
fn short_texts_are_not_too_long(rt: HostRuntime) -> Result<(), Fail> {
    let alloc = rt.alloc();
    let call = Call::AliasSet {
        name: Text::copied(alloc, b"ll")?,
        value: Text::copied(alloc, b"ls -l")?,
    };
    assert!(rt; too_long(&call).is_none());
    assert!(rt; too_long(&Call::Status).is_none());
    Ok(())
}
