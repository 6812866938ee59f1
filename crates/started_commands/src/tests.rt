ghost use Rattle.std.specs.Prelude.{◌≡◌, IfOk};

use super::*;
use plain_types::Text;
use record_model::Started;
use std::alloc::Global;
use std::test::Fail;

fn ls(alloc: Global, id: u128) -> Result<Started, Fail>
    ensures { IfOk result (λ s. s.id ≡ id) }
{
    Ok(Started {
        id,
        timestamp: 1,
        command: Text::copied(alloc, b"ls")?,
        cwd: Text::copied(alloc, b"/")?,
        session: Text::copied(alloc, b"s1")?,
        hostname: Text::copied(alloc, b"h:u")?,
    })
}

#[test]
fn a_command_runs_from_its_start_to_its_end(rt: HostRuntime) -> Result<(), Fail> {
    let alloc = rt.alloc();
    let mut commands = StartedCommands::new(alloc);
    // Room for a command shows nowhere.
    commands.reserve(7)?;
    assert!(rt; commands.get(7).is_none());
    assert!(rt; !commands.is_known(7));
    commands.start(ls(alloc, 7)?);
    assert!(rt; commands.is_known(7));
    match commands.get(7) {
        Some(started) => assert!(rt; started.command.as_bytes() == b"ls".as_slice()),
        None => assert!(rt; false),
    }
    // Another record ends nothing.
    commands.make_record(None);
    commands.make_record(Some(8));
    assert!(rt; commands.get(7).is_some());
    assert!(rt; !commands.is_known(8));
    commands.make_record(Some(7));
    assert!(rt; commands.get(7).is_none());
    assert!(rt; commands.is_known(7));
    Ok(())
}
