//! Requests as text.

ghost use Rattle.std.specs.Prelude.{List, ℕ, ◌++◌};
ghost use Rattle.at_edge.specs.Writing.{SinkSeen, WritesAll};
ghost use Rattle.http_wire.specs.Pieces.{IsAt};
ghost use Rattle.http_wire.specs.Seen.{request_seen};
ghost use Rattle.http_wire.specs.Written.{authorization_piece, request_text};

use crate::messages::Request;
use crate::pieces::{Pieces, end, no_pieces, put_piece};
use crate::writing::close_line;
use at_edge::{Sink, WriteFault};
use plain_types::Text;

/// The authorization's line, with the end of the line before it, where there is a value.
fn put_authorization<K: Sink>(sink: &mut K, pieces: &mut Pieces, value: &Option<Text>)
    ensures { (first : SinkSeen) (text : List ℕ) → IsAt first (K.sink sink.old) pieces.old text
        → IsAt first (K.sink sink.new) pieces.new (text ++ authorization_piece value.now) }
{
    match value {
        Some(value) => {
            put_piece(sink, pieces, "\r\nAuthorization: ".as_bytes());
            put_piece(sink, pieces, value.as_bytes());
        }
        None => put_piece(sink, pieces, "".as_bytes()),
    }
}

/// Writes the request to `host`: its line, the host, the authorization where there is one, whether it closes, the length of
/// its body, and the body. It takes no memory.
///
/// # Errors
///
/// [`WriteFault`] where the sink failed; it has then taken a proper prefix of the text.
pub fn write_request<K: Sink>(
    request: &Request,
    host: &[u8],
    sink: &mut K,
) -> Result<(), WriteFault>
    ensures { WritesAll (K.sink sink.old) (K.sink sink.new) result (request_text (request_seen request.now) host.now) }
{
    let mut count = itoa::Buffer::new();
    let mut pieces = no_pieces();
    put_piece(sink, &mut pieces, request.method.as_bytes());
    put_piece(sink, &mut pieces, " ".as_bytes());
    put_piece(sink, &mut pieces, request.target.as_bytes());
    put_piece(sink, &mut pieces, " HTTP/1.1\r\nHost: ".as_bytes());
    put_piece(sink, &mut pieces, host);
    put_authorization(sink, &mut pieces, &request.authorization);
    put_piece(sink, &mut pieces, close_line(request.close).as_bytes());
    put_piece(sink, &mut pieces, "\r\nContent-Length: ".as_bytes());
    put_piece(
        sink,
        &mut pieces,
        count.format(request.body.len()).as_bytes(),
    );
    put_piece(sink, &mut pieces, "\r\n\r\n".as_bytes());
    put_piece(sink, &mut pieces, request.body.as_slice());
    end(sink, &pieces)
}
