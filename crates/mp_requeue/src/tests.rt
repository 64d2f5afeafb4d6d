//! A list of requests.

ghost use Rattle.std.specs.Prelude.{◌≡◌, ◌∷◌, [], IfSome};

use crate::private::Private;
use mp_words::numbered::Numbered;
use mp_words::numbers::{Node, ReqId};
use mp_words::request::Request;
use std::alloc::Global;
use std::test::Fail;

/// Lists two requests and takes them all, unless memory runs out.
fn listed_and_taken(alloc: Global, first: Request, second: Request) -> Option<Vec<Request>>
    ensures { IfSome result (λ taken. taken.items ≡ first ∷ second ∷ []) }
{
    let mut list = Private::make(alloc);
    list.put(first).ok()?;
    list.put(second).ok()?;
    Some(list.take_all())
}

#[test]
fn requests_are_taken_in_order(rt: HostRuntime) -> Result<(), Fail> {
    let alloc = rt.alloc();
    let node = Node::make(0).unwrap();
    let first = Request::make(alloc, ReqId::make(7).unwrap(), node);
    let second = Request::make(alloc, ReqId::make(3).unwrap(), node);
    match listed_and_taken(alloc, first, second) {
        Some(taken) => {
            assert_eq!(rt; taken.len(), 2);
            assert_eq!(rt; (taken[0].id().get(), taken[1].id().get()), (7, 3));
        }
        None => assert!(rt; false),
    }
    Ok(())
}

#[test]
fn a_list_is_filled_again(rt: HostRuntime) -> Result<(), Fail> {
    let mut list = Private::make(rt.alloc());
    assert!(rt; list.put(1u8).is_ok());
    assert!(rt; list.put(2).is_ok());
    assert_eq!(rt; list.take_all().as_slice(), [1, 2].as_slice());
    assert!(rt; list.take_all().is_empty());
    assert!(rt; list.put(3).is_ok());
    assert_eq!(rt; list.take_all().as_slice(), [3].as_slice());
    Ok(())
}
