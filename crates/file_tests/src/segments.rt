//! Texts of other hands, as they are read and written again.
use edifact_segments::{SegFault, read_interchange, write_segment};
use std::alloc::Global;
use std::test::Fail;
use stow_data::Bytes;

/// The segments of an interchange in their written form.
fn rewritten(alloc: Global, bytes: &[u8]) -> Result<Bytes, SegFault> {
    let mut out = Bytes::new(alloc);
    if bytes.len() > 1000 {
        return Ok(out);
    }
    let segments = read_interchange(alloc, bytes)?;
    for segment in segments.as_slice() {
        write_segment(alloc, &mut out, segment)?;
    }
    Ok(out)
}

#[test]
fn reads_segments(rt: HostRuntime) -> Result<(), Fail> {
    let alloc = rt.alloc();
    let good: [(&[u8], &[u8]); 11] = [
        (b"UNB+A'UNZ+1'", b"UNB+A'\nUNZ+1'\n"),
        (b"\r\nUNB'\n\r\nUNZ'\r\n\r\n", b"UNB'\nUNZ'\n"),
        (b"UNB+A::+++'UNZ+:B:+'", b"UNB+A'\nUNZ+:B'\n"),
        (b"UNB+++A+'UNZ'", b"UNB+++A'\nUNZ'\n"),
        (b"UNB+O?'NEIL ?+ CO??'UNZ'", b"UNB+O?'NEIL ?+ CO??'\nUNZ'\n"),
        (
            b"UNA/*,! ~UNB*O'NEIL + CO/X~UNZ*A!*B~",
            b"UNB+O?'NEIL ?+ CO:X'\nUNZ+A*B'\n",
        ),
        (
            b"UNA/*,  ~UNB*O'NEIL + CO/?~UNZ~",
            b"UNB+O?'NEIL ?+ CO:??'\nUNZ'\n",
        ),
        (b"U?NB+?A'?U?N?Z'", b"UNB+A'\nUNZ'\n"),
        (b"UNB+\x80\xff'UNZ'", b"UNB+\x80\xff'\nUNZ'\n"),
        (b"UNB'UNB'ABC+:'UNZ'", b"UNB'\nUNB'\nABC'\nUNZ'\n"),
        (b"UNA:+.? 'UNB+?:'UNZ'", b"UNB+?:'\nUNZ'\n"),
    ];
    for (bytes, text) in good {
        let found = rewritten(alloc, bytes).map_err(|_| Fail::from("refused"))?;
        assert_eq!(rt; found.as_slice(), text, "in {bytes:?}");
    }
    Ok(())
}
