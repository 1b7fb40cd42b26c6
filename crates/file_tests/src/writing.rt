//! Bay plans as they are written (SMDG BAPLIE 2.2).
use baplie::{read_baplie, read_is_whole, write_baplie};
use std::alloc::Global;
use std::test::Fail;
use stow_data::Bytes;

/// A bay plan of one container.
const PLAN: &[u8] = b"UNB+UNOA:2+LINE+SHIP+260131:0900+77'
UNH+1+BAPLIE:D:95B:UN:SMDG22'
BGM++PLAN1+9'
DTM+137:2601310900:201'
TDT+20+012W+++ABC:172:20+++XYZ1:103::FEEDER ONE'
LOC+5+NLRTM:139:6'
LOC+61+DEHAM:139:6'
DTM+133:2601310900:201'
LOC+147+0020102::5'
FTX+AAI+++O?'NEIL ?+ CO'
MEA+VGM++KGM:21999.5'
DIM+5+CMT:10'
LOC+9+NLRTM:139:6'
LOC+11+DEHAM:139:6'
RFF+BM:1'
EQD+CN+ABCU1234567+42G1+++5'
NAD+CA+ABC:172:20'
UNT+17+1'
UNZ+1+77'
";

/// Other service characters, no line ends, a count with zeros in front.
const OTHER: &[u8] =
    b"UNA/*,! ~UNB*UNOA/2*LINE*SHIP*260131/0900*77~UNH*1*BAPLIE/D/95B/UN/SMDG22~LOC*147*0020102//5~FTX*AAI***O'NEIL + CO~MEA*VGM**KGM/21999.5~LOC*11*DEHAM/139/6~EQD*CN*ABCU1234567*42G1***5~UNT*007*1~UNZ*1*77~";

/// The same as it is written.
const SAME: &[u8] = b"UNB+UNOA:2+LINE+SHIP+260131:0900+77'
UNH+1+BAPLIE:D:95B:UN:SMDG22'
LOC+147+0020102::5'
FTX+AAI+++O?'NEIL ?+ CO'
MEA+VGM++KGM:21999.5'
LOC+11+DEHAM:139:6'
EQD+CN+ABCU1234567+42G1+++5'
UNT+7+1'
UNZ+1+77'
";

/// Neither groups nor references, all on one line.
const BARE: &[u8] = b"UNB'UNH++BAPLIE:D:95B:UN:SMDG22'UNT+2'UNZ+1'";

const BARE_LINES: &[u8] = b"UNB'
UNH++BAPLIE:D:95B:UN:SMDG22'
UNT+2'
UNZ+1'
";

/// Reads a short text, and writes its message.
fn rewritten(alloc: Global, bytes: &[u8]) -> Result<Bytes, Fail> {
    if bytes.len() > 10_000 {
        return Err(Fail::from("too long"));
    }
    let Ok(message) = read_baplie(alloc, bytes) else {
        return Err(Fail::from("refused"));
    };
    read_is_whole();
    Ok(write_baplie(alloc, &message)?)
}

#[test]
fn writes_what_is_read(rt: HostRuntime) -> Result<(), Fail> {
    for (text, written) in [(PLAN, PLAN), (OTHER, SAME), (BARE, BARE_LINES)] {
        let bytes = rewritten(rt.alloc(), text)?;
        assert_eq!(rt; bytes.as_slice(), written);
    }
    Ok(())
}
