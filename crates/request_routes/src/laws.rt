//! What holds of every request.

ghost use Rattle.request_routes.specs.Laws.{AsksHttp};

/// Whatever the request and the accounts, a page is posted, a status or a page is read, or nothing is asked with one of the
/// codes 400, 401, 404 and 405.
pub fn what_is_asked_is_of_http()
    ensures { AsksHttp }
{}
