//! Lists of different lengths.
use row_sums::FlatLists;
use std::test::Fail;

#[test]
fn lists_of_different_lengths(rt: HostRuntime) -> Result<(), Fail> {
    let mut lists = FlatLists::new(rt.alloc());
    lists.push(&[7, 8])?;
    lists.push(&[])?;
    lists.push(&[9])?;
    assert!(rt; lists.len() == 3);
    assert!(rt; lists.at(0) == [7, 8].as_slice());
    assert!(rt; lists.at(1).is_empty() && lists.at(2) == [9].as_slice() && lists.at(3).is_empty());
    Ok(())
}

#[test]
fn the_lists_of_each_number(rt: HostRuntime) -> Result<(), Fail> {
    let mut lists = FlatLists::new(rt.alloc());
    lists.push(&[2, 0])?;
    lists.push(&[2])?;
    let turned = lists.transposed(rt.alloc(), 3)?;
    assert!(rt; turned.at(0) == [0].as_slice());
    assert!(rt; turned.at(1).is_empty());
    assert!(rt; turned.at(2) == [0, 1].as_slice());
    Ok(())
}
