//! What a log page with two descriptors does to a path.

use crate::log::log_op;
use mp_page::read_page;
use mp_words::op::Op;
use std::test::Fail;

/// A page with two descriptors: group 1 is inaccessible and names namespace 1, and group 2, in the state change, names
/// namespace 2.
const PAGE: [u8; 88] = [
    5, 0, 0, 0, 0, 0, 0, 0, 2, 0, 0, 0, 0, 0, 0, 0, //
    1, 0, 0, 0, 1, 0, 0, 0, 5, 0, 0, 0, 0, 0, 0, 0, //
    3, 0, 0, 0, 0, 0, 0, 0, 0, 0, 0, 0, 0, 0, 0, 0, //
    1, 0, 0, 0, //
    2, 0, 0, 0, 1, 0, 0, 0, 5, 0, 0, 0, 0, 0, 0, 0, //
    15, 0, 0, 0, 0, 0, 0, 0, 0, 0, 0, 0, 0, 0, 0, 0, //
    2, 0, 0, 0,
];

#[test]
fn a_page_states_and_arms(rt: HostRuntime) -> Result<(), Fail> {
    match read_page(rt.alloc(), PAGE.as_slice(), 4) {
        Ok(page) => {
            assert!(rt;
                matches!(
                    log_op(&page, 1),
                    Op::Log {
                        state: Some(3),
                        changing: true
                    }
                )
            );
            assert!(rt;
                matches!(
                    log_op(&page, 3),
                    Op::Log {
                        state: None,
                        changing: true
                    }
                )
            );
        }
        Err(_) => assert!(rt; false),
    }
    Ok(())
}
