use super::*;
use std::test::Fail;

#[test]
fn fails_planned_calls(rt: HostRuntime) -> Result<(), Fail> {
    let mut counter = Counter::new(rt.alloc());
    for nth in [1, 3, 3, u64::MAX] {
        counter.plan(nth)?;
    }
    let planned = counter.left();
    let fails = [counter.tick(), counter.tick(), counter.tick()];
    assert_eq!(rt; fails, [true, false, true]);
    counter.plan(u64::MAX)?;
    assert_eq!(rt;
        [planned, counter.left(), counter.calls(), counter.faults()],
        [3, 1, 3, 2]
    );
    Ok(())
}
