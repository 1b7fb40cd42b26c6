//! Each public call once.
use baplie::{cell_text, read_cell_text, read_count, read_weight};
use std::test::Fail;
use stow_data::{Length, length_of_type};

#[test]
fn reads_texts(rt: HostRuntime) -> Result<(), Fail> {
    assert_eq!(rt; cell_text(2, 10, 82), *b"0021082");
    let cells: [(&[u8], Option<(u32, u32, u32)>); 6] = [
        (b"0021082", Some((2, 10, 82))),
        (b"021082", Some((2, 10, 82))),
        (b"9989998", Some((998, 99, 98))),
        (b"21082", None),
        (b"00021082", None),
        (b"00210 2", None),
    ];
    for (text, cell) in cells {
        assert_eq!(rt; read_cell_text(text), cell, "in {text:?}");
    }
    assert!(rt; length_of_type(b"22G1") == Some(Length::Twenty));
    assert!(rt; length_of_type(b"42G1") == Some(Length::Forty));
    assert!(rt; length_of_type(b"L5G1").is_none());
    assert!(rt; length_of_type(b"").is_none());
    assert_eq!(rt; read_count(b"000000017"), Some(17));
    assert_eq!(rt; read_count(b"0000000017"), None);
    assert_eq!(rt; read_count(b""), None);
    let weights: [(&[u8], Option<u32>); 10] = [
        (b"21999.5", Some(22_000)),
        (b"21999,0", Some(21_999)),
        (b"0,000000001", Some(1)),
        (b"99999", Some(99_999)),
        (b"99999.1", None),
        (b"100000", None),
        (b".5", None),
        (b"5.", None),
        (b"1.2,3", None),
        (b"-1", None),
    ];
    for (text, kg) in weights {
        assert_eq!(rt; read_weight(text), kg, "in {text:?}");
    }
    Ok(())
}
