//! Adding events for which there is room.

ghost use Rattle.std.specs.Prelude.{◌≡◌, ℕ, List, [], ◌∷◌, ◌++◌, Option, true};
ghost use Rattle.std.specs.Option.{option_map};
ghost use Rattle.payload_rules.specs.Payloads.{Payload};
ghost use Rattle.record_rules.specs.Records.{Entry};
ghost use Rattle.record_rules.specs.Records as said;
ghost use Rattle.record_rules.specs.Journal.{Sound};
ghost use Rattle.view_rules.specs.Changes.{change_of};
ghost use Rattle.record_model.specs.Seen.{started_seen, record_seen, event_seen};
ghost use Rattle.started_commands.specs.Kept.{has_place, IsOf, KeepsPlaces};
ghost use Rattle.kept_views.specs.Rooms.{HoldsShown, IsReady, KeepsRooms};
ghost use Rattle.kept_views.specs.Keeping.{KeepsFor, MayAdd, GrowsBy};

use crate::rooms::EventRoom;
use call_drafts::Kept;
use record_model::{Event, Record, Started};
use started_commands::StartedCommands;

/// The command starts, where its id is new, as it is in every sound journal.
fn start(commands: &mut StartedCommands, started: Started)
    requires { has_place commands.old started.id ≡ true }
    ensures starts { (host : ℕ) (journal : List Entry) (entry : Entry) → IsOf commands.old journal → entry.event ≡ said.Started (started_seen started) → Sound (journal ++ entry ∷ []) host → IsOf commands.new (journal ++ entry ∷ []) }
    ensures places { KeepsPlaces commands.old commands.new }
{
    if !commands.is_known(started.id) {
        commands.start(started);
    }
}

/// Shows what the room holds, as the change of this record.
fn show(kept: &mut Kept, rec: &Record, room: EventRoom)
    requires { (shown : Option Payload) × HoldsShown kept.old shown room }
    ensures commands { kept.new.commands ≡ kept.old.commands }
    ensures grows { (shown : Option Payload) → HoldsShown kept.old shown room → GrowsBy kept.old kept.new (option_map (change_of (record_seen rec.now)) shown) }
    ensures rooms { KeepsRooms kept.old kept.new }
{
    match room {
        EventRoom::Unshown => {}
        EventRoom::History(room) => kept.history.add(rec.host, rec.idx, room),
        EventRoom::Pair(room) => kept.pairs.add(rec.host, rec.idx, rec.timestamp, room),
        EventRoom::Alias(room) => kept.aliases.add(rec.host, rec.idx, rec.timestamp, room),
    }
}

/// Adds an event for which there is room. It takes no memory. Of a start under an id that is known already, which no
/// sound journal has, nothing is kept.
pub fn add_event(kept: &mut Kept, event: Event, room: EventRoom)
    requires { (shown : Option Payload) × IsReady kept.old (event_seen event) shown room }
    ensures grows { (host : ℕ) (key : Option (List ℕ)) (journal : List Entry) (entry : Entry) → entry.event ≡ event_seen event → MayAdd host key kept.old journal entry room → KeepsFor host key kept.new (journal ++ entry ∷ []) }
    ensures rooms { KeepsRooms kept.old kept.new }
{
    match event {
        Event::Started(started) => start(&mut kept.commands, started),
        Event::Local { rec, closes } => {
            show(kept, &rec, room);
            kept.commands.make_record(closes);
        }
        Event::Taken { rec, .. } => show(kept, &rec, room),
    }
}
