// Links in memory.
ghost use Rattle.std.specs.Prelude.{◌≡◌, ◌<◌, [], drop, length, map, Some, Contains, IsErr, IfOk, OnOk};
ghost use Rattle.at_edge.specs.Planned.{unmade, Made, MadeAsPlanned};
ghost use Rattle.at_edge.specs.Taking.{Reads};
ghost use Rattle.at_edge.specs.Writing.{Writes};
ghost use Rattle.at_edge.specs.Linking.{response_side, request_side, StartsExchange};
ghost use Rattle.at_edge.specs.MemoryForms.{no_link, first_list};

use crate::exchanges::Exchanges;
use crate::faults::{FailingCalls, count_fault};
use crate::{Got, Link, LinkFault, Sink, Source, Took};
use std::alloc::Global;

/// A link whose peer's responses are known beforehand, some of whose calls fail. Before the first start nothing comes
/// from it, and a write is a fault.
#[derive(Drop)]
pub struct MemLink {
    exchanges: Exchanges,
    failing: FailingCalls,
}

impl MemLink {
    ghost use Rattle.at_edge.specs.LinkViews.{link_seen, link_coming, link_plan};

    /// A link that began nothing yet. The responses are those of its exchanges, in order; further ones are empty.
    /// `failing` lists the numbers of the calls that are to fail, counted from 1; reads, writes and starts count alike.
    pub fn new(alloc: Global, responses: Vec<Vec<u8>>, failing: Vec<u64>) -> Self
        ensures seen { link_seen result ≡ no_link 0 }
        ensures coming { link_coming result ≡ map (λ v. v.items) responses.items }
        ensures plan { link_plan result ≡ unmade failing.items }
    {
        MemLink {
            exchanges: Exchanges::new(alloc, responses),
            failing: FailingCalls::new(failing),
        }
    }

    /// The request under way, as far as it was taken.
    pub fn request(&self) -> &[u8]
        ensures { (request_side (link_seen self.now)).held ≡ Some result.now }
    {
        self.exchanges.request()
    }
}

impl Source for MemLink {
    ghost use Rattle.at_edge.specs.LinkViews.{link_seen, link_coming, link_plan};

    ghost source = { λ l. response_side (link_seen l) };

    /// Fails exactly where the number of this call is listed.
    fn read(&mut self, into: &mut [u8]) -> Got
        requires { 0 < length into.old }
        ensures reads { Reads (response_side (link_seen self.old)) (response_side (link_seen self.new)) result into.new }
        ensures planned { MadeAsPlanned (link_plan self.old) (link_plan self.new) (result ≡ Got.Failed) }
        ensures coming { link_coming self.new ≡ link_coming self.old }
    {
        if self.failing.next_fails() {
            return Got::Failed;
        }
        match self.exchanges.give(into) {
            0 => Got::End,
            count => Got::Bytes(count),
        }
    }
}

impl Sink for MemLink {
    ghost use Rattle.at_edge.specs.LinkViews.{link_seen, link_coming, link_plan};

    ghost sink = { λ l. request_side (link_seen l) };

    /// Fails where the number of this call is listed, where nothing was started, or where there is no memory to grow.
    fn write(&mut self, from: &[u8]) -> Took
        requires { 0 < length from.now }
        ensures writes { Writes (request_side (link_seen self.old)) (request_side (link_seen self.new)) result from.now }
        ensures made { Made (link_plan self.old) (link_plan self.new) }
        ensures planned { Contains (link_plan self.old).numbers (link_plan self.new).made → result ≡ Took.Failed }
        ensures coming { link_coming self.new ≡ link_coming self.old }
    {
        if self.failing.next_fails() {
            return Took::Failed;
        }
        match self.exchanges.take(from) {
            Ok(()) => Took::Bytes(from.len()),
            Err(_) => {
                self.failing.fail();
                Took::Failed
            }
        }
    }
}

impl Link for MemLink {
    ghost use Rattle.std.proofs.Common.{refl};
    ghost use Rattle.at_edge.specs.LinkViews.{link_seen, link_coming, link_plan};

    ghost link = { link_seen };

    ghost sides = { λ l. record { source_is = refl; sink_is = refl } };

    /// Fails where the number of this call is listed, or where there is no memory to grow. At Ok what is left is the
    /// next response.
    fn start(&mut self) -> Result<(), LinkFault>
        ensures starts { StartsExchange (link_seen self.old) (link_seen self.new) result }
        ensures left { OnOk result ((link_seen self.new).left ≡ Some (first_list (link_coming self.old))) }
        ensures coming { OnOk result (link_coming self.new ≡ drop 1 (link_coming self.old)) }
        ensures made { Made (link_plan self.old) (link_plan self.new) }
        ensures planned { Contains (link_plan self.old).numbers (link_plan self.new).made → IsErr result }
    {
        if self.failing.next_fails() {
            return Err(LinkFault);
        }
        match self.exchanges.start() {
            Ok(()) => Ok(()),
            Err(fault) => {
                self.failing.fail();
                Err(fault)
            }
        }
    }
}

/// A link whose peer's responses are known beforehand, and which fails only where it finds no memory to grow, or where a
/// write comes before the first start.
#[derive(Drop)]
pub struct SureLink {
    exchanges: Exchanges,
    faults: u64,
}

impl SureLink {
    ghost use Rattle.at_edge.specs.LinkViews.{sure_link_seen, sure_link_coming};

    /// A link that began nothing yet. The responses are those of its exchanges, in order; further ones are empty.
    pub fn new(alloc: Global, responses: Vec<Vec<u8>>) -> Self
        ensures seen { sure_link_seen result ≡ no_link 0 }
        ensures coming { sure_link_coming result ≡ map (λ v. v.items) responses.items }
    {
        SureLink {
            exchanges: Exchanges::new(alloc, responses),
            faults: 0,
        }
    }

    /// The request under way, as far as it was taken.
    pub fn request(&self) -> &[u8]
        ensures { (request_side (sure_link_seen self.now)).held ≡ Some result.now }
    {
        self.exchanges.request()
    }
}

impl Source for SureLink {
    ghost use Rattle.at_edge.specs.LinkViews.{sure_link_seen};

    ghost source = { λ l. response_side (sure_link_seen l) };

    fn read(&mut self, into: &mut [u8]) -> Got {
        match self.exchanges.give(into) {
            0 => Got::End,
            count => Got::Bytes(count),
        }
    }
}

impl Sink for SureLink {
    ghost use Rattle.at_edge.specs.LinkViews.{sure_link_seen};

    ghost sink = { λ l. request_side (sure_link_seen l) };

    fn write(&mut self, from: &[u8]) -> Took {
        match self.exchanges.take(from) {
            Ok(()) => Took::Bytes(from.len()),
            Err(_) => {
                count_fault(&mut self.faults);
                Took::Failed
            }
        }
    }
}

impl Link for SureLink {
    ghost use Rattle.std.proofs.Common.{refl};
    ghost use Rattle.at_edge.specs.LinkViews.{sure_link_seen, sure_link_coming};

    ghost link = { sure_link_seen };

    ghost sides = { λ l. record { source_is = refl; sink_is = refl } };

    /// At Ok what is left is the next response.
    fn start(&mut self) -> Result<(), LinkFault>
        ensures starts { StartsExchange (sure_link_seen self.old) (sure_link_seen self.new) result }
        ensures left { OnOk result ((sure_link_seen self.new).left ≡ Some (first_list (sure_link_coming self.old))) }
        ensures coming { OnOk result (sure_link_coming self.new ≡ drop 1 (sure_link_coming self.old)) }
    {
        match self.exchanges.start() {
            Ok(()) => Ok(()),
            Err(fault) => {
                count_fault(&mut self.faults);
                Err(fault)
            }
        }
    }
}
