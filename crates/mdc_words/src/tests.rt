use crate::count_fault;
use std::test::Fail;

#[test]
fn a_count_stands_still_at_its_last_number(rt: HostRuntime) -> Result<(), Fail> {
    let mut faults = u64::MAX - 1;
    count_fault(&mut faults);
    assert_eq!(rt; faults, u64::MAX);
    count_fault(&mut faults);
    assert_eq!(rt; faults, u64::MAX);
    Ok(())
}
