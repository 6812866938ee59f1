ghost use Rattle.std.specs.Prelude.{List};
ghost use Rattle.chain_index.specs.Meaning.{Filed, IsIndexOf};

use super::*;
use plain_types::Text;
use record_log::Spot;
use record_model::Record;
use std::alloc::Global;
use std::test::Fail;

fn history(alloc: Global, host: u128, idx: u64, id: u128) -> Result<Record, Fail> {
    Ok(Record {
        id,
        idx,
        host,
        host_name: Text::copied(alloc, b"")?,
        timestamp: 2,
        version: Text::copied(alloc, b"v0")?,
        tag: Text::copied(alloc, b"history")?,
        sealed: Text::copied(alloc, b"s")?,
        wrapped: Text::copied(alloc, b"w")?,
    })
}

fn pair(alloc: Global, host: u128, idx: u64, id: u128) -> Result<Record, Fail> {
    let mut rec = history(alloc, host, idx, id)?;
    rec.tag = Text::copied(alloc, b"kv")?;
    Ok(rec)
}

/// Adds the record where it is the next of its chain, and tells whether it was. Each stands at the place 3 of its batch.
fn file(
    index: &mut ChainIndex,
    alloc: Global,
    owner: u32,
    rec: &Record,
    offset: u64,
) -> Result<bool, Fail>
    requires { (filed : List Filed) × IsIndexOf index.old filed }
    ensures { (filed : List Filed) × IsIndexOf index.new filed }
{
    let room = index.reserve(alloc, owner, rec)?;
    let held = index.held(owner);
    if index.count(owner, rec.host, rec.tag.as_bytes()) != rec.idx
        || held.entries > 9
        || held.bytes > 9_999
        || rec.weight() > 999
    {
        return Ok(false);
    }
    index.add_reserved(owner, rec, Spot { offset, count: 9 }, 3, room);
    Ok(true)
}

/// Counts a started command of this weight, and tells whether it could be counted.
fn start(index: &mut ChainIndex, weight: u64) -> bool
    requires { (filed : List Filed) × IsIndexOf index.old filed }
{
    let held = index.held(0);
    if held.entries > 9 || held.bytes > 9_999 || weight > 999 {
        return false;
    }
    index.add_started(weight);
    true
}

#[test]
fn records_are_found_by_owner_host_and_tag(rt: HostRuntime) -> Result<(), Fail> {
    let alloc = rt.alloc();
    let mut index = ChainIndex::new(alloc);
    assert!(rt; file(&mut index, alloc, 5, &history(alloc, 2, 0, 70)?, 32)?);
    assert!(rt; file(&mut index, alloc, 5, &pair(alloc, 2, 0, 71)?, 50)?);
    assert!(rt; file(&mut index, alloc, 5, &history(alloc, 1, 0, 72)?, 60)?);
    assert!(rt; file(&mut index, alloc, 5, &history(alloc, 2, 1, 73)?, 70)?);
    assert!(rt; file(&mut index, alloc, 0, &history(alloc, 2, 0, 74)?, 80)?);
    // A record that isn't the next of its chain was made room for, and shows nowhere.
    assert!(rt; !file(&mut index, alloc, 5, &history(alloc, 2, 9, 75)?, 90)?);
    assert!(rt; !file(&mut index, alloc, 7, &history(alloc, 9, 1, 76)?, 90)?);
    assert!(rt; !index.has_id(75));
    assert!(rt; index.has_id(74));
    assert!(rt; index.count(5, 2, b"history") == 2);
    assert!(rt; index.count(5, 2, b"kv") == 1);
    assert!(rt; index.count(5, 2, b"k") == 0);
    assert!(rt; index.count(7, 9, b"history") == 0);
    assert!(rt; index.id_at(5, 2, b"history", 1) == Some(73));
    assert!(rt; index.id_at(0, 2, b"history", 0) == Some(74));
    assert!(rt; index.id_at(5, 2, b"history", 2) == None);
    assert!(rt;
        index.spot_at(5, 2, b"history", 1)
            == Some((
                Spot {
                    offset: 70,
                    count: 9
                },
                3
            ))
    );
    assert!(rt; index.spot_at(0, 2, b"history", 1) == None);
    Ok(())
}

#[test]
fn what_an_owner_holds_is_counted_and_listed_in_order(rt: HostRuntime) -> Result<(), Fail> {
    let alloc = rt.alloc();
    let mut index = ChainIndex::new(alloc);
    assert!(rt; file(&mut index, alloc, 5, &history(alloc, 2, 0, 70)?, 32)?);
    assert!(rt; file(&mut index, alloc, 5, &pair(alloc, 2, 0, 71)?, 50)?);
    assert!(rt; file(&mut index, alloc, 5, &history(alloc, 1, 0, 72)?, 60)?);
    assert!(rt; file(&mut index, alloc, 5, &history(alloc, 2, 1, 73)?, 70)?);
    // 128 bytes, and those of host name, version, tag, sealed and wrapped text: 139 with `history`, 134 with `kv`.
    assert!(rt;
        index.held(5)
            == Held {
                entries: 4,
                bytes: 551,
                places: 3
            }
    );
    assert!(rt;
        index.held(0)
            == Held {
                entries: 0,
                bytes: 0,
                places: 0
            }
    );
    assert!(rt; start(&mut index, 300));
    assert!(rt;
        index.held(0)
            == Held {
                entries: 1,
                bytes: 300,
                places: 0
            }
    );
    let status = index.status(alloc, 5)?;
    let chains = status.as_slice();
    assert!(rt; chains.len() == 3);
    assert!(rt; chains[0].host == 1 && chains[0].count == 1);
    assert!(rt;
        chains[1].host == 2
            && chains[1].tag.as_bytes() == b"history".as_slice()
            && chains[1].count == 2
    );
    assert!(rt; chains[2].tag.as_bytes() == b"kv".as_slice() && chains[2].count == 1);
    assert!(rt; index.status(alloc, 6)?.len() == 0);
    Ok(())
}
