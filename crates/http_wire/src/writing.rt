//! Messages as text.

ghost use Rattle.std.specs.Prelude.{◌≡◌, ◌≤◌, [], ◌∷◌, ◌++◌, codes, length, if◌then◌else◌};
ghost use Rattle.at_edge.specs.Writing.{WritesAll};
ghost use Rattle.http_wire.specs.Seen.{response_seen};
ghost use Rattle.http_wire.specs.Written.{response_lines, response_text, head_of};

use crate::gathered::{Gathered, add, finish};
use crate::messages::Response;
use crate::phrases::phrase;
use arrayvec::ArrayVec;
use at_edge::{Sink, WriteFault};

/// The line that ends a connection, with the end of the line before it.
pub fn close_line(close: bool) -> &'static str
    ensures value { result.now ≡ if close then 13 ∷ 10 ∷ codes "Connection: close" else [] }
    ensures short { length result.now ≤ 19 }
{
    if close { "\r\nConnection: close" } else { "" }
}

/// The lines of a response, with the empty line behind them.
fn response_head(code: u16, close: bool, body_len: usize) -> Gathered
    ensures { result.items ≡ head_of (response_lines code close body_len) }
{
    let mut digits = itoa::Buffer::new();
    let mut count = itoa::Buffer::new();
    let mut head = ArrayVec::new();
    add(&mut head, "HTTP/1.1 ".as_bytes());
    add(&mut head, digits.format(code).as_bytes());
    add(&mut head, " ".as_bytes());
    add(&mut head, phrase(code).as_bytes());
    add(
        &mut head,
        "\r\nContent-Type: application/json\r\nContent-Length: ".as_bytes(),
    );
    add(&mut head, count.format(body_len).as_bytes());
    add(&mut head, close_line(close).as_bytes());
    add(&mut head, "\r\n\r\n".as_bytes());
    head
}

/// Writes the response: its line, the type and the length of its body, whether it closes, and the body. It takes no memory.
///
/// # Errors
///
/// [`WriteFault`] where the sink failed; it has then taken a proper prefix of the text.
pub fn write_response<K: Sink>(response: &Response, sink: &mut K) -> Result<(), WriteFault>
    ensures { WritesAll (K.sink sink.old) (K.sink sink.new) result (response_text (response_seen response.now)) }
{
    let body = response.body.as_slice();
    let mut head = response_head(response.code, response.close, body.len());
    finish(sink, &mut head, body)
}
