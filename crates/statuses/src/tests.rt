use super::*;
use std::test::*;

#[test]
fn numbers_are_those_of_the_table(rt: HostRuntime) -> Result<(), Fail> {
    assert_eq!(rt; Status::Done.number(), 0);
    assert_eq!(rt; Status::NoMemory.number(), 11);
    assert_eq!(rt; Status::of_number(9), Some(Status::WrongDisk));
    assert!(rt; Status::of_number(1).is_none());
    Ok(())
}

#[test]
fn a_person_is_told(rt: HostRuntime) -> Result<(), Fail> {
    assert_eq!(rt; Status::Done.message(), "");
    assert_eq!(rt;
        Status::SinkFault.message(),
        "writing standard output failed"
    );
    Ok(())
}
