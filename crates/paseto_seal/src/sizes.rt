// The sizes that version 4 of both standards fixes, in bytes.

pub const KEY_BYTES: usize = 32;

pub const NONCE_BYTES: usize = 32;

pub const TAG_BYTES: usize = 32;
