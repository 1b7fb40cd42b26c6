//! Trails with more records than stand beside the shared list.
use certificate::{End, Record, SharedRecord, Trail};
use std::alloc::Global;
use std::test::Fail;
use stow_data::{CallNo, HalfNo, NoMemory};
use zero_one_rows::{RaiseList, Row, RowList};

/// A record with so many steps.
fn record_with(alloc: Global, count: u32) -> Result<Record, NoMemory> {
    let mut steps = RowList::new(alloc);
    for half in 0..count {
        steps.push(Row::Cell {
            call: CallNo(1),
            half: HalfNo(half),
        })?;
    }
    Record::of(alloc, false, steps, RaiseList::new(alloc), End::Left)
}

/// So many records: the first without steps, each further one with a step more.
fn counted(alloc: Global, count: u32) -> Result<Trail, NoMemory> {
    let mut trail = Trail::new(alloc);
    for steps in 0..count {
        let shared = SharedRecord::new(alloc, record_with(alloc, steps)?)?;
        trail.push(alloc, shared)?;
    }
    Ok(trail)
}

/// Whether a trail has so many records: the first without steps, each further one with a step more.
fn is_counted(trail: &Trail, count: usize) -> bool {
    if trail.len() != count {
        return false;
    }
    (0..trail.len()).all(|depth| trail.get(depth).record().steps.len() == depth)
}

#[test]
fn a_long_trail(rt: HostRuntime) -> Result<(), Fail> {
    let trail = counted(rt.alloc(), 80)?;
    let shared = trail.share(rt.alloc())?;
    assert!(rt; is_counted(&trail, 80) && is_counted(&shared, 80));
    let all = shared.take_first(rt.alloc(), 100)?;
    assert!(rt; is_counted(&all, 80));
    let most = all.take_first(rt.alloc(), 70)?;
    assert!(rt; is_counted(&most, 70));
    let half = most.take_first(rt.alloc(), 40)?;
    assert!(rt; is_counted(&half, 40) && is_counted(&trail, 80));
    Ok(())
}
