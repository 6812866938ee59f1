//! What is kept of an id, in numbers.

ghost use Rattle.std.specs.Prelude.{◌≡◌, true};
ghost use Rattle.std.specs.Ordering.{nat_cmp, ordering_then, is_lt};
ghost use Rattle.history_view.specs.Rows.{nothing_held, held_after, shown_row, numbers_of};

/// A creation: the host and idx of its change, and the command but for its id, each text by its number.
#[derive(Clone, Copy, Debug, Drop)]
pub struct Creation {
    pub host: u128,
    pub idx: u64,
    pub timestamp: u64,
    pub duration: i64,
    pub exit: i64,
    pub deleted_at: Option<u64>,
    pub command: u32,
    pub cwd: u32,
    pub session: u32,
    pub hostname: u32,
    pub author: Option<u32>,
}

/// The texts of a shown command, by their numbers.
#[derive(Clone, Copy, Debug, Drop)]
pub struct TextNumbers {
    pub command: u32,
    pub cwd: u32,
    pub session: u32,
    pub hostname: u32,
}

/// How an id stands.
#[derive(Clone, Copy, Debug, Drop)]
pub struct Held {
    pub dead: bool,
    pub first: Option<Creation>,
}

impl Creation {
    /// The creation by a change at this host and idx.
    pub fn placed(self, host: u128, idx: u64) -> Creation
        ensures { result ≡ record self { host = host; idx = idx } }
    {
        Creation { host, idx, ..self }
    }

    pub fn numbers(&self) -> TextNumbers
        ensures { result ≡ numbers_of self.now }
    {
        TextNumbers {
            command: self.command,
            cwd: self.cwd,
            session: self.session,
            hostname: self.hostname,
        }
    }

    /// Whether the creation stands at a lesser host and idx.
    fn is_before(&self, other: &Creation) -> bool
        ensures { result ≡ is_lt (ordering_then (nat_cmp self.now.host other.now.host) (nat_cmp self.now.idx other.now.idx)) }
    {
        self.host < other.host || self.host == other.host && self.idx < other.idx
    }
}

impl Held {
    /// No change of the id came.
    pub fn untouched() -> Held
        ensures { result ≡ nothing_held }
    {
        Held {
            dead: false,
            first: None,
        }
    }

    /// How the id stands after this creation of it.
    pub fn after_creation(&self, new: Creation) -> Held
        ensures { result ≡ held_after new self.now }
    {
        let dead = self.dead || new.deleted_at.is_some();
        match &self.first {
            Some(first) if !new.is_before(first) => Held {
                dead,
                first: self.first,
            },
            _ => Held {
                dead,
                first: Some(new),
            },
        }
    }

    /// How the id stands after its deletion.
    pub fn after_deletion(&self) -> Held
        ensures { result ≡ record { dead = true; first = self.now.first } }
    {
        Held {
            dead: true,
            first: self.first,
        }
    }

    /// The creation that is shown.
    pub fn shown(&self) -> Option<Creation>
        ensures { result ≡ shown_row self.now }
    {
        if self.dead { None } else { self.first }
    }
}
