//! What a path and a method ask for.

ghost use Rattle.std.specs.Prelude.{◌≡◌};
ghost use Rattle.request_routes.specs.Routing.{action_on as wanted, action_on_next, action_on_records, path_of, query_of};

use crate::fail::RouteFail;

/// What a row of the table of paths and methods does.
#[derive(Clone, Copy, Debug, PartialEq, Eq)]
pub enum Action {
    GiveStatus,
    GivePage,
    TakePage,
}

/// The path and the query of a target: what stands before its first `?`, and what stands behind.
pub fn split_target(target: &[u8]) -> (&[u8], &[u8])
    ensures path { result.0.now ≡ path_of target.now }
    ensures query { result.1.now ≡ query_of target.now }
{
    match target.iter().position(|&byte| byte == b'?') {
        Some(at) => (&target[..at], &target[at + 1..]),
        None => (target, &[]),
    }
}

fn on_records(method: &[u8]) -> Result<Action, RouteFail>
    ensures { result ≡ action_on_records method.now }
{
    if method == b"GET".as_slice() {
        Ok(Action::GiveStatus)
    } else if method == b"POST".as_slice() {
        Ok(Action::TakePage)
    } else {
        Err(RouteFail::NoMethod)
    }
}

fn on_next(method: &[u8]) -> Result<Action, RouteFail>
    ensures { result ≡ action_on_next method.now }
{
    if method == b"GET".as_slice() {
        Ok(Action::GivePage)
    } else {
        Err(RouteFail::NoMethod)
    }
}

/// What is asked for on this path by this method. It takes no memory.
///
/// # Errors
///
/// [`RouteFail::NoPath`] where no row has the path, whatever the method; then [`RouteFail::NoMethod`].
pub fn action_on(path: &[u8], method: &[u8]) -> Result<Action, RouteFail>
    ensures { result ≡ wanted path.now method.now }
{
    if path == b"/api/v0/record".as_slice() {
        on_records(method)
    } else if path == b"/api/v0/record/next".as_slice() {
        on_next(method)
    } else {
        Err(RouteFail::NoPath)
    }
}
