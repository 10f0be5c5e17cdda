//! Stacks seen from their top.

use std::alloc::Global;
use std::test::Fail;
use wasm_stack::Stack;

/// Two zeros, and these numbers above them.
fn stack_of(alloc: Global, numbers: &[u64]) -> Result<Stack<u64>, Fail> {
    let mut stack = Stack::new(alloc);
    stack.fill(0, 2)?;
    for number in numbers {
        stack.push(*number)?;
    }
    Ok(stack)
}

/// Whether the readers see 3 on top of 2 and 1, which lie on two zeros.
fn is_seen(stack: &Stack<u64>) -> bool {
    stack.top().copied() == Some(3)
        && stack.get(2).copied() == Some(1)
        && stack.copy_at(4) == Some(0)
        && stack.copy_at(5).is_none()
}

/// Whether these come from the top, and nothing after them.
fn gives(mut stack: Stack<u64>, want: &[u64]) -> bool {
    for number in want {
        if stack.pop() != Some(*number) {
            return false;
        }
    }
    stack.is_empty() && stack.pop().is_none()
}

#[test]
fn items_come_from_the_top(rt: HostRuntime) -> Result<(), Fail> {
    let mut stack = stack_of(rt.alloc(), &[1, 2, 3])?;
    assert!(rt; stack.len() == 5);
    assert!(rt; is_seen(&stack));
    stack.set(1, 7);
    if let Some(top) = stack.top_mut() {
        *top = 9;
    }
    assert!(rt; gives(stack, &[9, 7, 1, 0, 0]));
    Ok(())
}

#[test]
fn both_ends_are_kept(rt: HostRuntime) -> Result<(), Fail> {
    let mut stack = stack_of(rt.alloc(), &[5, 6, 7])?;
    assert!(rt; stack.len() == 5);
    stack.collapse(1, 2);
    assert!(rt; stack.len() == 3 && stack.copy_at(0) == Some(7));
    stack.truncate(2);
    assert!(rt; gives(stack, &[0, 0]));
    Ok(())
}
