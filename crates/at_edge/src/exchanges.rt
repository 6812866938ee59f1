// What a link in memory keeps: its exchanges, and the responses that are still to come.
ghost use Rattle.std.specs.Prelude.{◌≡◌, ℕ, ◌<◌, ◌≤◌, [], false, Some, length, take, drop, map, OnOk, OnErr};
ghost use Rattle.at_edge.specs.Taking.{Gave};
ghost use Rattle.at_edge.specs.Writing.{Holds};
ghost use Rattle.at_edge.specs.Linking.{response_side, request_side, BeginsOne, Idle};
ghost use Rattle.at_edge.specs.MemoryForms.{no_link, first_list};

use crate::LinkFault;
use crate::supply::Supply;
use std::alloc::Global;
use std::mem;

/// The bytes that were taken in an exchange, and those that were given or are still to be given.
#[derive(Drop)]
pub(crate) struct KeptExchange {
    request: Vec<u8>,
    response: Supply,
}

/// The exchanges of a link, and the responses of those that aren't begun yet, one each. Behind the last response come
/// empty ones. A call that fails does nothing.
#[derive(Drop)]
pub(crate) struct Exchanges {
    alloc: Global,
    coming: Vec<Vec<u8>>,
    earlier: Vec<KeptExchange>,
    current: KeptExchange,
    is_under_way: bool,
    ghost fresh: { is_under_way ≡ false → earlier.items ≡ [] },
}

/// Takes the first of the lists, or an empty one where there is none.
fn take_first(alloc: Global, lists: &mut Vec<Vec<u8>>) -> Vec<u8>
    ensures first { result.items ≡ first_list (map (λ v. v.items) lists.old.items) }
    ensures rest { map (λ v. v.items) lists.new.items ≡ drop 1 (map (λ v. v.items) lists.old.items) }
{
    if lists.is_empty() {
        return Vec::new(alloc);
    }
    lists.remove(0)
}

impl Exchanges {
    ghost use Rattle.at_edge.specs.Exchanging.{link_kept, still_coming};

    /// Nothing is begun yet.
    pub(crate) fn new(alloc: Global, responses: Vec<Vec<u8>>) -> Self
        ensures none { link_kept result 0 ≡ no_link 0 }
        ensures coming { still_coming result ≡ map (λ v. v.items) responses.items }
    {
        Exchanges {
            alloc,
            coming: responses,
            earlier: Vec::new(alloc),
            current: KeptExchange {
                request: Vec::new(alloc),
                response: Supply::new(Vec::new(alloc)),
            },
            is_under_way: false,
        }
    }

    /// Begins an exchange, whose response is the next one to come.
    pub(crate) fn start(&mut self) -> Result<(), LinkFault>
        ensures begun { OnOk result (BeginsOne (link_kept self.old 0).exchanges (link_kept self.new 0).exchanges) }
        ensures left { OnOk result ((link_kept self.new 0).left ≡ Some (first_list (still_coming self.old))) }
        ensures coming { OnOk result (still_coming self.new ≡ drop 1 (still_coming self.old)) }
        ensures undone { OnErr result ((before after : ℕ) → before ≤ after → Idle (link_kept self.old before) (link_kept self.new after)) }
    {
        if self.earlier.reserve(1).is_err() {
            return Err(LinkFault);
        }
        let next = KeptExchange {
            request: Vec::new(self.alloc),
            response: Supply::new(take_first(self.alloc, &mut self.coming)),
        };
        let before = mem::replace(&mut self.current, next);
        if self.is_under_way {
            match self.earlier.push(before) {
                Ok(()) => {}
                Err(_) => unreachable!(),
            }
        }
        self.is_under_way = true;
        Ok(())
    }

    /// Gives as many bytes of the response as the slice has room for and are left.
    pub(crate) fn give(&mut self, into: &mut [u8]) -> usize
        ensures fits { result ≤ length into.new }
        ensures gave { (before after : ℕ) → before ≤ after → Gave (response_side (link_kept self.old before)) (response_side (link_kept self.new after)) (take result into.new) }
        ensures end { result ≡ 0 → 0 < length into.old → (link_kept self.new 0).left ≡ Some [] }
        ensures coming { still_coming self.new ≡ still_coming self.old }
    {
        if !self.is_under_way {
            return 0;
        }
        self.current.response.give(into)
    }

    /// The request under way, as far as it was taken.
    pub(crate) fn request(&self) -> &[u8]
        ensures { (request_side (link_kept self.now 0)).held ≡ Some result.now }
    {
        if self.is_under_way {
            return &self.current.request;
        }
        &[]
    }

    /// Takes all the bytes. It fails where no exchange is under way.
    pub(crate) fn take(&mut self, from: &[u8]) -> Result<(), LinkFault>
        ensures took { OnOk result ((before after : ℕ) → before ≤ after → Holds (request_side (link_kept self.old before)) (request_side (link_kept self.new after)) from.now) }
        ensures undone { OnErr result ((before after : ℕ) → before ≤ after → Holds (request_side (link_kept self.old before)) (request_side (link_kept self.new after)) []) }
        ensures coming { still_coming self.new ≡ still_coming self.old }
    {
        if !self.is_under_way {
            return Err(LinkFault);
        }
        match self.current.request.extend_from_slice(from) {
            Ok(()) => Ok(()),
            Err(_) => Err(LinkFault),
        }
    }
}
