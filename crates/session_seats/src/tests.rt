//! Sessions over a store that has no entries and no memory for any: each frame gets its reply, in order, and each end
//! is told.

ghost use Rattle.std.specs.Prelude.{◌≡◌, []};

use super::*;
use at_edge::{Clock, Entropy, FixedClock, MemSink, MemSource, Served, SessionFail, SureEntropy};
use record_model::{Answer, Call, Chains, Refusal, Reply};
use std::alloc::{AllocError, Global};
use std::process::Abort;
use std::test::*;

/// It tells that it has no chains and runs no command, and wants memory for all else.
#[derive(Drop)]
struct EmptyStore {
    alloc: Global,
}

fn no_chains(alloc: Global) -> Chains
    ensures { result ≡ [] }
{
    Chains::from_vec(Vec::new(alloc))
}

impl CallStore for EmptyStore {
    ghost use Rattle.session_seats.specs.EmptyStores.{empty_store};

    ghost store = { λ _. empty_store };

    fn ask<E: Entropy, C: Clock>(
        &mut self,
        _number: u64,
        call: &Call,
        _rand: &mut E,
        clock: &mut C,
    ) -> Reply {
        match call {
            Call::Status => Reply {
                front: 0,
                result: Ok(Answer::Places(no_chains(self.alloc))),
            },
            Call::End { id, author, .. } => match author {
                None => {
                    let _now = clock.now();
                    Reply {
                        front: 0,
                        result: Err(Refusal::UnknownId { id: *id }),
                    }
                }
                Some(_) => Reply {
                    front: 0,
                    result: Err(Refusal::NoMemory),
                },
            },
            _ => Reply {
                front: 0,
                result: Err(Refusal::NoMemory),
            },
        }
    }

    fn front(&mut self) -> u64 {
        0
    }
}

const STATUS: &[u8] = b"\x00\x00\x00\x02\x91\x0b";

const NO_CHAINS: &[u8] = b"\x00\x00\x00\x04\x93\x00\x00\x90";

const END: &[u8] =
    b"\x00\x00\x00\x28\x94\x02\xd9\x20018bcfe5680070018203040506070809\xcd\x03\xe8\x00";

const UNKNOWN: &[u8] = b"\x00\x00\x00\x25\x93\x02\x00\xd9\x20018bcfe5680070018203040506070809";

const START: &[u8] = b"\x00\x00\x00\x0e\x95\x01\xa2ls\xa1/\xa2s1\xa3h:u";

const WANTING: &[u8] = b"\x00\x00\x00\x03\x92\x08\x00";

const NO_CALL: &[u8] = b"\x00\x00\x00\x02\x91\x63";

const WRONG_AT_1: &[u8] = b"\x00\x00\x00\x04\x93\x09\x00\x01";

const NO_PAYLOAD: &[u8] = b"\x00\x00\x00\x00";

const WRONG_AT_0: &[u8] = b"\x00\x00\x00\x04\x93\x09\x00\x00";

fn joined(alloc: Global, parts: &[&[u8]]) -> Result<Vec<u8>, AllocError> {
    let mut all = Vec::new(alloc);
    for part in parts {
        all.extend_from_slice(part)?;
    }
    Ok(all)
}

/// Serves this input, of which read `failing_read` and write `failing_write` fail, counted from 1; 0 is none.
fn check<R: AllocGlobal + Abort>(
    rt: &R,
    input: &[&[u8]],
    failing_read: u64,
    failing_write: u64,
    output: &[&[u8]],
    ended: Result<Served, SessionFail>,
) -> Result<(), Fail> {
    let alloc = rt.alloc();
    let mut source = MemSource::new(joined(alloc, input)?, vec![in alloc; failing_read]?);
    let mut sink = MemSink::new(alloc, vec![in alloc; failing_write]?);
    let mut rand = SureEntropy::new(Vec::new(alloc));
    let mut clock = FixedClock { now: 0, step: 1 };
    let mut store = EmptyStore { alloc };
    let found = serve_alone(
        alloc,
        &mut store,
        &mut source,
        &mut sink,
        &mut rand,
        &mut clock,
    );
    assert!(rt; found == ended);
    assert_eq!(rt; sink.written(), joined(alloc, output)?.as_slice());
    Ok(())
}

#[test]
fn each_frame_gets_its_reply(rt: HostRuntime) -> Result<(), Fail> {
    check(&rt, &[], 0, 0, &[], Ok(Served { requests: 0 }))?;
    check(
        &rt,
        &[STATUS, NO_CALL, END, START, NO_PAYLOAD, STATUS],
        0,
        0,
        &[
            NO_CHAINS, WRONG_AT_1, UNKNOWN, WANTING, WRONG_AT_0, NO_CHAINS,
        ],
        Ok(Served { requests: 6 }),
    )
}

#[test]
fn an_input_that_ends_badly_keeps_its_replies(rt: HostRuntime) -> Result<(), Fail> {
    let cut = Err(SessionFail::CutFrame { at: 6 });
    let long = Err(SessionFail::FrameTooLong { length: 1_048_577 });
    check(&rt, &[STATUS, &END[..9]], 0, 0, &[NO_CHAINS], cut)?;
    check(&rt, &[STATUS, &END[..2]], 0, 0, &[NO_CHAINS], cut)?;
    check(&rt, &[b"\x00\x10\x00\x01", STATUS], 0, 0, &[], long)
}

#[test]
fn faults_in_mid_stream_end_it(rt: HostRuntime) -> Result<(), Fail> {
    let read = Err(SessionFail::SourceFault);
    let write = Err(SessionFail::SinkFault);
    check(&rt, &[STATUS, END, STATUS], 4, 0, &[NO_CHAINS], read)?;
    check(&rt, &[STATUS, END, STATUS], 0, 2, &[NO_CHAINS], write)
}
