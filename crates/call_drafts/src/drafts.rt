//! What is to be appended.

use payload_forms::Payload;
use plain_types::Text;

/// What a writing call is to append.
#[derive(Debug, Drop)]
pub enum Draft {
    /// A command that starts. Its id and its time aren't known yet.
    Start {
        command: Text,
        cwd: Text,
        session: Text,
        hostname: Text,
    },
    /// A payload that is to be sealed in a record, which ends the running command `closes`, if there is one.
    Record {
        closes: Option<u128>,
        payload: Payload,
    },
}
