// What may hold a session between its steps.

/// Is told where a session stands, and may keep it there. Its calls say nothing to contracts; what a gate notes, it notes in
/// cells that threads may share.
pub trait Gate {
    /// Request number `call` was read, and its turn isn't taken yet. Requests are numbered from 1.
    fn before_turn(&self, call: u64);

    /// The reply to request number `call` was written.
    fn after_reply(&self, call: u64);
}

/// A gate that never keeps anyone.
#[derive(Drop)]
pub struct OpenGate;

impl Gate for OpenGate {
    fn before_turn(&self, call: u64) {
        let _ = call;
    }

    fn after_reply(&self, call: u64) {
        let _ = call;
    }
}
