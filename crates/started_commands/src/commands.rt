//! Commands by their ids.

ghost use Rattle.std.specs.Prelude.{◌≡◌, ◌++◌, ◌∷◌, ℕ, List, [], true, false, cond, nat_eq, OnOk, Some, None};
ghost use Rattle.std.specs.Option.{option_map, is_some};
ghost use Rattle.record_rules.specs.Records.{Entry, SealedRecord};
ghost use Rattle.record_rules.specs.Records as kept;
ghost use Rattle.record_rules.specs.Journal.{events_of};
ghost use Rattle.step_rules.specs.Step.{running_under};
ghost use Rattle.record_model.specs.Seen.{started_seen};
ghost use Rattle.started_commands.specs.declared.commands.Standing.TheVariants.{Ended as ended_, Running as running_};
ghost use Rattle.started_commands.specs.Kept.{standing_in, has_place, is_known, running_in, KeepsPlaces, IsOf, was_started};

use plain_types::NoMemory;
use record_model::Started;
use std::alloc::Global;
use std::collections::HashMap;
use std::marker::Model;

/// How a command stands that has a place.
#[derive(Debug, Drop)]
pub enum Standing {
    /// It was made room for, and isn't started.
    Expected,
    Running(Started),
    Ended,
}

type Commands = HashMap<u128, Standing>;

/// The commands that were started, by their ids.
#[derive(Drop)]
pub struct StartedCommands {
    commands: Commands,
}

impl Model for StartedCommands {
    ghost use Rattle.started_commands.specs.Kept.{Kept};

    ghost Value = { Kept };

    ghost view = { λ c. c.commands.entries };
}

/// Makes a place for the id where it has none.
fn make(commands: &mut Commands, id: u128) -> Result<(), NoMemory>
    ensures made { OnOk result (has_place commands.new.entries id ≡ true) }
    ensures known { (q : ℕ) → is_known commands.new.entries q ≡ is_known commands.old.entries q }
    ensures running { (q : ℕ) → running_in commands.new.entries q ≡ running_in commands.old.entries q }
    ensures kept { KeepsPlaces commands.old.entries commands.new.entries }
{
    if commands.contains_key(&id) {
        return Ok(());
    }
    match commands.insert(id, Standing::Expected) {
        Ok(_) => Ok(()),
        Err(_) => Err(NoMemory),
    }
}

/// Puts how a command stands that has a place.
fn put(commands: &mut Commands, id: u128, standing: Standing)
    requires { has_place commands.old.entries id ≡ true }
    ensures stands { (q : ℕ) → standing_in commands.new.entries q ≡ cond (nat_eq id q) (Some standing) (standing_in commands.old.entries q) }
{
    match commands.insert(id, standing) {
        Ok(_) => {}
        Err(_) => unreachable!(),
    }
}

/// What the start of a running command told.
fn running(commands: &Commands, id: u128) -> Option<&Started>
    ensures { option_map (λ s. started_seen s.now) result ≡ running_in commands.now.entries id }
{
    match commands.get(&id) {
        Some(Standing::Running(started)) => Some(started),
        _ => None,
    }
}

impl StartedCommands {
    /// No commands. It takes no memory.
    pub fn new(alloc: Global) -> StartedCommands
        ensures { IsOf result [] }
    {
        StartedCommands {
            commands: HashMap::new(alloc),
        }
    }

    /// Whether a command was started with the id. It takes no memory.
    pub fn is_known(&self, id: u128) -> bool
        ensures known { result ≡ is_known self.now id }
        ensures started { (journal : List Entry) → IsOf self.now journal → result ≡ was_started id (events_of journal) }
    {
        match self.commands.get(&id) {
            Some(Standing::Running(_)) => true,
            Some(Standing::Ended) => true,
            _ => false,
        }
    }

    /// What the start of the running command with the id told. None comes exactly where no command runs under it. It takes
    /// no memory.
    pub fn get(&self, id: u128) -> Option<&Started>
        ensures { (journal : List Entry) → IsOf self.now journal → option_map (λ s. started_seen s.now) result ≡ running_under id journal }
    {
        running(&self.commands, id)
    }

    /// Makes room for a command with the id. No later call undoes that.
    ///
    /// # Errors
    ///
    /// [`NoMemory`]. The same commands run as before, and the same ids are known.
    pub fn reserve(&mut self, id: u128) -> Result<(), NoMemory>
        ensures made { OnOk result (has_place self.new id ≡ true) }
        ensures same { (journal : List Entry) → IsOf self.old journal → IsOf self.new journal }
        ensures known { (q : ℕ) → is_known self.new q ≡ is_known self.old q }
        ensures kept { KeepsPlaces self.old self.new }
    {
        make(&mut self.commands, id)
    }

    /// A command starts, for which there is room, with an id that isn't known. It takes no memory.
    pub fn start(&mut self, started: Started)
        requires place { has_place self.old started.id ≡ true }
        requires new { is_known self.old started.id ≡ false }
        ensures starts { (journal : List Entry) (entry : Entry) → IsOf self.old journal → entry.event ≡ kept.Started (started_seen started) → IsOf self.new (journal ++ entry ∷ []) }
        ensures kept { KeepsPlaces self.old self.new }
    {
        put(&mut self.commands, started.id, Standing::Running(started));
    }

    /// A record was made here, which may end a command. It takes no memory.
    pub fn make_record(&mut self, closes: Option<u128>)
        ensures ends { (journal : List Entry) (entry : Entry) (r : SealedRecord) → IsOf self.old journal → entry.event ≡ kept.Local closes r → IsOf self.new (journal ++ entry ∷ []) }
        ensures kept { KeepsPlaces self.old self.new }
    {
        if let Some(id) = closes {
            self.end(id);
        }
    }

    /// The command ends, where it runs.
    fn end(&mut self, id: u128)
        ensures known { (q : ℕ) → is_known self.new q ≡ is_known self.old q }
        ensures running { (q : ℕ) → running_in self.new q ≡ cond (nat_eq id q) None (running_in self.old q) }
        ensures kept { KeepsPlaces self.old self.new }
    {
        if running(&self.commands, id).is_some() {
            put(&mut self.commands, id, Standing::Ended);
        }
    }
}
