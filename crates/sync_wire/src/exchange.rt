//! One exchange: a request that is sent, and the body of the response.

ghost use Rattle.std.specs.Prelude.{◌≡◌};
ghost use Rattle.http_wire.specs.Seen.{request_seen, response_seen};
ghost use Rattle.http_wire.specs.Written.{request_text};
ghost use Rattle.sync_wire.specs.Exchanging.{Asks, Sends, GivesBody, SaysItself, NeverUnsaid};

use crate::fail::AskFail;
use at_edge::{Link, WriteFault};
use http_wire::{Body, Request, Response, Wire, write_request};
use plain_types::{NoMemory, Text};
use std::alloc::Global;

/// The code of a response that says what was asked for.
const OK_CODE: u16 = 200;

/// Begins an exchange, and sends the request in it.
fn send<L: Link>(host: &Text, request: &Request, link: &mut L) -> Result<(), AskFail>
    ensures { Sends (request_text (request_seen request.now) host.now) (L.link link.old) (L.link link.new) result }
{
    link.start()?;
    match write_request(request, host.as_bytes(), link) {
        Ok(()) => Ok(()),
        Err(WriteFault) => Err(AskFail::LinkFault),
    }
}

/// The body of a response of the code 200.
fn body_of(response: Response) -> Result<Body, AskFail>
    ensures { GivesBody (response_seen response) result }
{
    if response.code != OK_CODE {
        return Err(AskFail::PeerStatus {
            code: response.code,
        });
    }
    Ok(response.body)
}

/// Sends the request in an exchange of its own, and reads the body of the response to it, which has the code 200.
///
/// # Errors
///
/// Each [`AskFail`]. At [`AskFail::LinkFault`] a prefix of the request was sent, or all of it and the response wasn't whole.
/// At [`AskFail::PeerForm`] what came is no response. [`AskFail::NoMemory`], before or after the exchange.
pub fn ask<L: Link>(
    alloc: Global,
    host: &Text,
    request: &Request,
    link: &mut L,
) -> Result<Body, AskFail>
    ensures { Asks SaysItself NeverUnsaid (request_text (request_seen request.now) host.now) (L.link link.old) (L.link link.new) result }
{
    let mut wire = Wire::new(alloc)?;
    send(host, request, link)?;
    let response = wire.read_response(link)?;
    body_of(response)
}
