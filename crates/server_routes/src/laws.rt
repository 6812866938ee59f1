//! What holds of every request.

ghost use Rattle.server_routes.specs.Isolation.{ServesAlone, ServesAlike, KeepsOthers};

/// A store that one caller alone has, and that tells what its disk holds, serves each request from the state in which it was
/// left.
pub fn a_store_alone_serves()
    ensures { ServesAlone }
{}

/// An owner's responses depend on what that owner holds alone: at two stores in which it holds the same, with nothing in
/// doubt, a request of it gets one response, unless a disk failed or memory was wanting.
pub fn owners_are_served_alike()
    ensures { ServesAlike }
{}

/// A request leaves what every other owner holds, but for a commit in doubt that it settles.
pub fn owners_keep_what_they_hold()
    ensures { KeepsOthers }
{}
