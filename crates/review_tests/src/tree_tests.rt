//! `visit_tree`: the order of visits, and how deep they stand.
use std::process::Abort;
use std::test::Fail;
use visit_tree::{levels_of, tree_order};

// Two that no visit opened, behind each its own; the last two name one that doesn't stand before them.
#[test]
fn puts_each_visit_below_its_opener(rt: HostRuntime) -> Result<(), Fail> {
    let alloc = rt.alloc();
    let openers = [None, Some(0), None, Some(0), Some(1), Some(7), Some(6)];
    let order = tree_order(alloc, &openers)?;
    assert!(rt; order.as_slice() == [0, 1, 4, 3, 2, 5, 6].as_slice());
    let levels = levels_of(alloc, &openers)?;
    assert!(rt; levels.as_slice() == [0, 1, 0, 1, 2, 0, 0].as_slice());
    Ok(())
}

const MANY: usize = 100_000;

// Each opened by the one before: no call goes that deep.
#[test]
fn goes_down_a_long_chain(rt: HostRuntime) -> Result<(), Fail> {
    let alloc = rt.alloc();
    let mut openers = Vec::new(alloc);
    openers.push(None)?;
    for place in 1..MANY {
        openers.push(Some(place - 1))?;
    }
    let order = tree_order(alloc, openers.as_slice())?;
    let levels = levels_of(alloc, openers.as_slice())?;
    assert!(rt; order.len() == MANY && order[MANY - 1] == MANY - 1);
    assert!(rt; levels.len() == MANY && levels[MANY - 1] == MANY - 1);
    Ok(())
}
