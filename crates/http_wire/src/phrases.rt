//! The reason phrases of codes.

ghost use Rattle.std.specs.Prelude.{◌≡◌, ◌≤◌, length};
ghost use Rattle.http_wire.specs.Phrases.{phrase_of};

/// The phrase of a code that is answered, empty for any other.
pub fn phrase(code: u16) -> &'static str
    ensures value { result.now ≡ phrase_of code }
    ensures short { length result.now ≤ 31 }
{
    match code {
        200 => "OK",
        400 => "Bad Request",
        401 => "Unauthorized",
        404 => "Not Found",
        405 => "Method Not Allowed",
        409 => "Conflict",
        411 => "Length Required",
        413 => "Content Too Large",
        431 => "Request Header Fields Too Large",
        500 => "Internal Server Error",
        503 => "Service Unavailable",
        507 => "Insufficient Storage",
        _ => "",
    }
}
