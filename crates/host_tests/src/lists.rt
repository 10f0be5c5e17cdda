//! Lists of labels, with ample memory.

ghost use Rattle.std.specs.Prelude.{◌≡◌, length, IfOk};

use label_lattice::Label;
use label_limits::Limits;
use label_queues::{Queues, Refused};
use std::alloc::Global;
use std::test::Fail;
use trapeze_io::NoMemory;

/// Lists for two labels, the first with room for two items and the second for one.
fn two_lists(alloc: Global) -> Result<Queues<u8>, NoMemory>
    ensures { IfOk result (λ queues. length queues.limits ≡ 2) }
{
    let first = Limits {
        queue: 2,
        ..Limits::usual()
    };
    let second = Limits {
        queue: 1,
        ..Limits::usual()
    };
    Queues::new(alloc, &[first, second])
}

#[test]
fn each_label_has_a_list_of_its_own(rt: HostRuntime) -> Result<(), Fail> {
    let (low, top) = (Label::numbered(0), Label::numbered(1));
    let mut queues = two_lists(rt.alloc())?;
    assert_eq!(rt; queues.arrive(low, 1), Ok(()));
    assert_eq!(rt; queues.arrive(top, 2), Ok(()));
    assert_eq!(rt; queues.arrive(top, 3), Err((3, Refused::Full)));
    assert_eq!(rt; queues.arrive(low, 4), Ok(()));
    assert_eq!(rt; queues.arrive(low, 5), Err((5, Refused::Full)));
    assert_eq!(rt; (queues.len(low), queues.len(top)), (2, 1));
    assert_eq!(rt; queues.leave(low), Some(1));
    assert_eq!(rt; queues.leave(low), Some(4));
    assert_eq!(rt; queues.leave(low), None);
    assert_eq!(rt; queues.leave(top), Some(2));
    Ok(())
}

#[test]
fn the_front_is_worked_on_in_its_list(rt: HostRuntime) -> Result<(), Fail> {
    let low = Label::numbered(0);
    let mut queues = two_lists(rt.alloc())?;
    assert_eq!(rt; queues.front(low).is_some(), false);
    assert_eq!(rt; queues.arrive(low, 1), Ok(()));
    assert_eq!(rt; queues.arrive(low, 2), Ok(()));
    if let Some(front) = queues.front(low) {
        *front = 7;
    }
    assert_eq!(rt; queues.len(low), 2);
    queues.rotate(low);
    assert_eq!(rt; queues.leave(low), Some(2));
    assert_eq!(rt; queues.leave(low), Some(7));
    Ok(())
}
