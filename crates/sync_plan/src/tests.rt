ghost use Rattle.std.specs.Prelude.{◌≡◌, IfOk};

use super::*;
use plain_types::{NoMemory, Text};
use record_model::Chain;
use std::alloc::Global;
use std::test::*;

fn chain(alloc: Global, host: u128, count: u64) -> Result<Chain, NoMemory>
    ensures { IfOk result (λ c. c.host ≡ host) }
{
    Ok(Chain {
        host,
        tag: Text::copied(alloc, b"kv")?,
        count,
    })
}

fn told(step: &Step) -> (u128, bool, u64, u64) {
    (step.host, step.upload, step.from, step.to)
}

#[test]
fn what_either_lacks_is_sent(rt: HostRuntime) -> Result<(), Fail> {
    let alloc = rt.alloc();
    let local = [chain(alloc, 1, 5)?, chain(alloc, 3, 4)?];
    let remote = [
        chain(alloc, 1, 3)?,
        chain(alloc, 2, 2)?,
        chain(alloc, 3, 4)?,
    ];
    let steps = plan(alloc, &local, &remote)?;
    assert_eq!(rt; steps.len(), 2);
    let [first, second] = steps.as_slice() else {
        return Ok(());
    };
    assert_eq!(rt; told(first), (1, true, 3, 5));
    assert_eq!(rt; told(second), (2, false, 0, 2));
    assert_eq!(rt; second.tag.as_bytes(), b"kv".as_slice());
    Ok(())
}

#[test]
fn a_page_has_at_most_a_hundred(rt: HostRuntime) -> Result<(), Fail> {
    assert_eq!(rt;
        (
            page_len(0, 250),
            page_len(150, 250),
            page_len(200, 250),
            page_len(250, 250)
        ),
        (100, 100, 50, 0)
    );
    Ok(())
}
