use super::*;
use std::test::Fail;

#[test]
fn a_new_node_outlives_a_crash(rt: HostRuntime) -> Result<(), Fail> {
    let alloc = rt.alloc();
    let node = Node::create(alloc, 1, [7; 32], 1)?;
    let mut opened = node.crash(alloc, 2)?;
    assert!(rt; opened.status(alloc)?.len() == 0);
    Ok(())
}
