//! Why nothing was learned from the peer.

ghost use Rattle.std.specs.Prelude.{◌≡◌};
ghost use Rattle.sync_wire.specs.Refusals.{memory_wanted, link_failed, reply_refused, body_refused};

use at_edge::LinkFault;
use http_wire::HttpFail;
use plain_types::NoMemory;
use record_json::JsonFail;

/// Why nothing was learned from the peer.
#[derive(Clone, Copy, Debug, PartialEq, Eq)]
pub enum AskFail {
    /// The link failed: its count of faults rose.
    LinkFault,
    /// The response has another code than 200.
    PeerStatus { code: u16 },
    /// What came is no response, or its body isn't of the form asked for.
    PeerForm,
    /// Memory was wanted and there was none.
    NoMemory,
}

impl From<NoMemory> for AskFail {
    ghost from_gives = { λ _ f. f ≡ memory_wanted };

    fn from(_error: NoMemory) -> AskFail {
        AskFail::NoMemory
    }
}

impl From<LinkFault> for AskFail {
    ghost from_gives = { λ _ f. f ≡ link_failed };

    fn from(_error: LinkFault) -> AskFail {
        AskFail::LinkFault
    }
}

impl From<HttpFail> for AskFail {
    ghost from_gives = { λ e f. f ≡ reply_refused e };

    fn from(error: HttpFail) -> AskFail {
        match error {
            HttpFail::ReadFault => AskFail::LinkFault,
            HttpFail::NoMemory => AskFail::NoMemory,
            _ => AskFail::PeerForm,
        }
    }
}

impl From<JsonFail> for AskFail {
    ghost from_gives = { λ e f. f ≡ body_refused e };

    fn from(error: JsonFail) -> AskFail {
        match error {
            JsonFail::NoMemory => AskFail::NoMemory,
            _ => AskFail::PeerForm,
        }
    }
}
