//! The order of rows, by hand.
use stow_data::{CallNo, HalfNo, KindNo, PlaceNo, StackNo};
use zero_one_rows::{Chain, Row};

/// A row's text comes first by its family, then by its numbers, chains with a prefix first.
fn rises(a: &Row, b: &Row) -> bool {
    a < b && a != b
}

fn cross(numbers: &[u32]) -> Option<Row> {
    if numbers.len() > 12 {
        return None;
    }
    Some(Row::Cross {
        length: 20,
        price: 1,
        chain: Chain::of(numbers),
    })
}

fn chains_rise() -> bool {
    match (
        cross(&[0, 1, 2, 3]),
        cross(&[0, 1, 2, 3, 4, 5]),
        cross(&[0, 1, 2, 4]),
    ) {
        (Some(short), Some(long), Some(later)) => rises(&short, &long) && rises(&long, &later),
        _ => false,
    }
}

#[test]
fn orders_rows(rt: HostRuntime) {
    let flow = Row::Flow {
        q: 1,
        call: CallNo(9),
        kind: KindNo(9),
    };
    let start = Row::Start {
        q: 0,
        place: PlaceNo(0),
    };
    let cell = Row::Cell {
        call: CallNo(1),
        half: HalfNo(7),
    };
    let weight = Row::Weight {
        call: CallNo(1),
        stack: StackNo(0),
    };
    assert!(rt; rises(&flow, &start));
    assert!(rt; rises(&start, &cell));
    assert!(rt; rises(&cell, &weight));
    assert!(rt; chains_rise());
}
