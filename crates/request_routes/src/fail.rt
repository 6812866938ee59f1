//! Why a request asks the store nothing.

ghost use Rattle.std.specs.Prelude.{◌≡◌};

use plain_types::NoMemory;
use record_json::JsonFail;

/// Why a request asks the store nothing.
#[derive(Clone, Copy, Debug, PartialEq, Eq)]
pub enum RouteFail {
    /// No row has the path.
    NoPath,
    /// A row has the path, and none has the method with it.
    NoMethod,
    /// There isn't one `Authorization` field, or its value isn't `Token ` and an account's token.
    UnknownToken,
    /// The query or the body isn't of the form.
    BadRequest,
    /// Memory was wanted and there was none.
    NoMemory,
}

impl From<NoMemory> for RouteFail {
    ghost use Rattle.request_routes.specs.declared.fail.RouteFail.TheVariants.{NoMemory as no_memory};

    ghost from_gives = { λ _ fail. fail ≡ no_memory };

    fn from(_error: NoMemory) -> RouteFail {
        RouteFail::NoMemory
    }
}

impl From<JsonFail> for RouteFail {
    ghost use Rattle.request_routes.specs.Failing.{json_failed};

    ghost from_gives = { λ json fail. fail ≡ json_failed json };

    fn from(fail: JsonFail) -> RouteFail {
        match fail {
            JsonFail::NotJson => RouteFail::BadRequest,
            JsonFail::NotRecords { .. } => RouteFail::BadRequest,
            JsonFail::NoMemory => RouteFail::NoMemory,
        }
    }
}
