//! The lists of an object, the order of calls, and faults.

use cerco_base::{CallOrder, Code, Fault, LabelList, NoMemory, StartBytes};
use std::test::Fail;

#[test]
fn an_object_keeps_its_lists(rt: HostRuntime) -> Result<(), Fail> {
    let alloc = rt.alloc();
    let mut code = Code::new(alloc);
    code.push(34)?;
    assert_eq!(rt; code.as_slice(), [34].as_slice());
    let mut labels = LabelList::new(alloc);
    labels.push(8)?;
    assert_eq!(rt; labels.as_slice(), [8].as_slice());
    let mut start = StartBytes::new(alloc);
    start.push(1, 255)?;
    assert_eq!(rt; start.bytes(), [(1, 255)].as_slice());
    Ok(())
}

#[test]
fn callers_come_first(rt: HostRuntime) -> Result<(), Fail> {
    let mut order = CallOrder::new(rt.alloc());
    order.add(7, &[])?;
    order.add(2, &[7])?;
    assert_eq!(rt; order.functions(), [7, 2].as_slice());
    assert_eq!(rt; order.callers(1), [7].as_slice());
    assert_eq!(rt; Fault::from(NoMemory), Fault::OutOfMemory);
    Ok(())
}
