//! Whose a request is.

ghost use Rattle.std.specs.Prelude.{◌≡◌};
ghost use Rattle.std.specs.Option.{option_map};
ghost use Rattle.request_routes.specs.Routing.{owner_asking as asking, token_in};

use accounts::Accounts;
use plain_types::Text;

/// What stands before the token in the value of an `Authorization` field.
const MARK: &[u8] = b"Token ";

/// The token that the value of an `Authorization` field tells: what stands behind `Token `, if it begins so.
fn token_in(value: &[u8]) -> Option<&[u8]>
    ensures { option_map (λ token. token.now) result ≡ token_in value.now }
{
    if value.starts_with(MARK) {
        Some(&value[MARK.len()..])
    } else {
        None
    }
}

/// The owner whose token the one `Authorization` field tells; `None` where there is no such field, it isn't of the form, or
/// no account has the token. It takes no memory.
pub fn owner_asking(accounts: &Accounts, authorization: &Option<Text>) -> Option<u32>
    ensures { result ≡ asking accounts.now authorization.now }
{
    match authorization {
        Some(value) => match token_in(value.as_bytes()) {
            Some(token) => accounts.owner(token),
            None => None,
        },
        None => None,
    }
}
