//! What the statuses of the disposition's table ask for.

use crate::class::Class;
use crate::disposition::class;
use std::test::Fail;

/// How a class is written here.
fn name(class: Class) -> &'static str {
    match class {
        Class::Complete => "complete",
        Class::Failover { ana: true } => "failover by ana",
        Class::Failover { ana: false } => "failover",
        Class::Retry => "retry",
    }
}

#[test]
fn statuses_are_sorted(rt: HostRuntime) {
    assert_eq!(rt; name(class(0x0000, 0)), "complete");
    assert_eq!(rt; name(class(0x4302, 0)), "complete");
    assert_eq!(rt; name(class(0x0302, 5)), "complete");
    assert_eq!(rt; name(class(0x0302, 4)), "failover by ana");
    assert_eq!(rt; name(class(0x1B01, 0)), "failover by ana");
    assert_eq!(rt; name(class(0x0303, 0)), "failover by ana");
    assert_eq!(rt; name(class(0x0300, 0)), "failover");
    assert_eq!(rt; name(class(0x0304, 0)), "failover");
    assert_eq!(rt; name(class(0x0370, 0)), "failover");
    assert_eq!(rt; name(class(0x0006, 4)), "retry");
    assert_eq!(rt; name(class(0x0006, 5)), "complete");
    assert_eq!(rt; name(class(0x0800, 0)), "retry");
}
