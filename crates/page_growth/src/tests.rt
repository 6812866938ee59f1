ghost use Rattle.std.specs.Prelude.{List};
ghost use Rattle.chain_index.specs.Meaning.{Filed, IsIndexOf};

use super::*;
use chain_index::{ChainIndex, Held};
use plain_types::{NoMemory, Text};
use record_log::Spot;
use record_model::Record;
use std::alloc::Global;
use std::test::Fail;

fn record(alloc: Global, host: u128, idx: u64, id: u128) -> Result<Record, NoMemory> {
    Ok(Record {
        id,
        idx,
        host,
        host_name: Text::copied(alloc, b"")?,
        timestamp: 2,
        version: Text::copied(alloc, b"v0")?,
        tag: Text::copied(alloc, b"history")?,
        sealed: Text::copied(alloc, b"s")?,
        wrapped: Text::copied(alloc, b"w")?,
    })
}

/// The page of these hosts, idxs and ids.
fn page_of(alloc: Global, places: &[(u128, u64, u128)]) -> Result<Vec<Record>, NoMemory> {
    let mut page = Vec::new(alloc);
    for place in places {
        page.push(record(alloc, place.0, place.1, place.2)?)?;
    }
    Ok(page)
}

/// A page of so many records of one chain.
fn long_page(alloc: Global, count: u64) -> Result<Vec<Record>, NoMemory> {
    let mut page = Vec::new(alloc);
    for idx in 0..count {
        page.push(record(alloc, 2, idx, 70)?)?;
    }
    Ok(page)
}

/// Adds the record where it is the next of its chain.
fn file(index: &mut ChainIndex, alloc: Global, owner: u32, rec: &Record) -> Result<(), Fail>
    requires { (filed : List Filed) × IsIndexOf index.old filed }
    ensures { (filed : List Filed) × IsIndexOf index.new filed }
{
    let room = index.reserve(alloc, owner, rec)?;
    let held = index.held(owner);
    if index.count(owner, rec.host, rec.tag.as_bytes()) != rec.idx
        || held.entries > 9
        || held.bytes > 9_999
        || rec.weight() > 999
    {
        return Ok(());
    }
    index.add_reserved(
        owner,
        rec,
        Spot {
            offset: 32,
            count: 9,
        },
        3,
        room,
    );
    Ok(())
}

/// Whether the page is refused for that.
fn is_refused(checked: Result<Vec<bool>, PageFail>, refusal: PageRefusal) -> bool {
    match checked {
        Ok(_) => false,
        Err(fail) => fail == PageFail::Refused(refusal),
    }
}

/// Whether these of the page are fresh.
fn marks_are(checked: Result<Vec<bool>, PageFail>, marks: &[bool]) -> bool {
    match checked {
        Ok(checked) => checked.as_slice() == marks,
        Err(_) => false,
    }
}

#[test]
fn fresh_records_are_marked(rt: HostRuntime) -> Result<(), Fail> {
    let alloc = rt.alloc();
    let mut index = ChainIndex::new(alloc);
    file(&mut index, alloc, 5, &record(alloc, 2, 0, 70)?)?;
    let page = page_of(
        alloc,
        &[(2, 0, 70), (2, 1, 71), (1, 0, 80), (2, 1, 71), (2, 2, 72)],
    )?;
    assert!(rt;
        marks_are(
            check_page(alloc, &index, 5, &page),
            &[false, true, true, false, true]
        )
    );
    assert!(rt;
        marks_are(
            check_page(alloc, &index, 6, &page),
            &[true, true, true, false, true]
        )
    );
    Ok(())
}

#[test]
fn gaps_and_forks_are_refused(rt: HostRuntime) -> Result<(), Fail> {
    let alloc = rt.alloc();
    let mut index = ChainIndex::new(alloc);
    file(&mut index, alloc, 5, &record(alloc, 2, 0, 70)?)?;
    let page = page_of(alloc, &[(2, 1, 71), (2, 3, 73)])?;
    let gap = PageRefusal::Gap {
        position: 1,
        wanted: 2,
    };
    assert!(rt; is_refused(check_page(alloc, &index, 5, &page), gap));
    let page = page_of(alloc, &[(2, 1, 71), (2, 1, 79)])?;
    let fork = PageRefusal::Forked {
        position: 1,
        held: 71,
    };
    assert!(rt; is_refused(check_page(alloc, &index, 5, &page), fork));
    let page = page_of(alloc, &[(2, 0, 79)])?;
    let fork = PageRefusal::Forked {
        position: 0,
        held: 70,
    };
    assert!(rt; is_refused(check_page(alloc, &index, 5, &page), fork));
    Ok(())
}

#[test]
fn the_hundred_and_first_record_is_refused(rt: HostRuntime) -> Result<(), Fail> {
    let alloc = rt.alloc();
    let index = ChainIndex::new(alloc);
    // Each weighs 139 bytes.
    let long = PageRefusal::TooLong {
        position: 100,
        length: 14_039,
    };
    assert!(rt; is_refused(check_page(alloc, &index, 5, &long_page(alloc, 101)?), long));
    assert!(rt; check_page(alloc, &index, 5, &long_page(alloc, 100)?).is_ok());
    Ok(())
}

#[test]
fn limits_are_passed_in_order(rt: HostRuntime) {
    let most = Held {
        entries: 3_999_999,
        bytes: 4_294_967_295,
        places: 4_096,
    };
    assert!(rt; limit_passed(most, 1, false) == None);
    let places = PassedLimit {
        what: 3,
        held: 4_096,
    };
    assert!(rt; limit_passed(most, 1, true) == Some(places));
    let bytes = PassedLimit {
        what: 2,
        held: 4_294_967_295,
    };
    assert!(rt; limit_passed(most, 2, true) == Some(bytes));
    let full = Held {
        entries: 4_000_000,
        bytes: 4_294_967_295,
        places: 4_096,
    };
    let entries = PassedLimit {
        what: 1,
        held: 4_000_000,
    };
    assert!(rt; limit_passed(full, 2, true) == Some(entries));
}
