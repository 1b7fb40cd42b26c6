//! A worked list, its picture, and runs over folders in memory.
use crate::{ListFault, draw_work, list_asked, read_list, work_picture};
use picture_files::Status;
use std::alloc::Global;
use std::test::Fail;
use stow_data::{Bytes, NoMemory, NumberList, Word, WordList};
use stow_io::{MemFolder, MemSink};

/// One container stands over another that is discharged: it is lifted and put back. A cover goes off and on.
const LIST: &str =
    "cranes 2\nmoves 7\nrounds 4\nleast 4\n1 1 off 0\n1 2 lift 0180082 MSKU0000011\n2 1 lift 0020004 A<CU1234567\n2 2 put 0180082 TTTU7654321\n3 1 lift 0020002 BBBU0000022\n4 1 put 0020002 A<CU1234567\n4 2 on 1\n";

/// Whether a text holds another one.
fn has(text: &Bytes, part: &[u8]) -> bool {
    (0..text.len()).any(|front| text.as_slice()[front..].starts_with(part))
}

/// The picture of the worked list; nothing, where it isn't read.
fn drawn(alloc: Global) -> Result<Bytes, NoMemory> {
    match read_list(alloc, LIST.as_bytes()) {
        Ok(list) => {
            let text = work_picture(alloc, "out/<work>.txt", &list);
            drop(list);
            text
        }
        Err(_) => Ok(Bytes::new(alloc)),
    }
}

fn line_of(alloc: Global, text: &str) -> u64 {
    match read_list(alloc, text.as_bytes()) {
        Ok(_) => 0,
        Err(ListFault::Line(line)) => line,
        Err(ListFault::NoMemory) => 0,
    }
}

fn run(alloc: Global, there: &str) -> Result<(Status, Bytes), NoMemory> {
    let mut folder = MemFolder::new(alloc, NumberList::new(alloc));
    folder.lay("a/work", LIST.as_bytes())?;
    folder.lay("a/cut", b"cranes 2\n")?;
    folder.lay("a/work.svg", there.as_bytes())?;
    let mut out = MemSink::new(alloc, 1000, NumberList::new(alloc))?;
    let status = draw_work(alloc, "a/work", &mut folder, &mut out);
    let text = Bytes::of(alloc, out.text().as_slice());
    drop(out);
    drop(folder);
    Ok((status, text?))
}

#[test]
fn draws_a_worked_list(rt: HostRuntime) -> Result<(), Fail> {
    let text = drawn(rt.alloc())?;
    assert!(rt;
        has(
            &text,
            b"Cranes: 2. Moves: 7. Rounds: 4. No list of these moves has fewer rounds than 4."
        )
    );
    assert!(rt; has(&text, b"out/&lt;work&gt;.txt"));
    assert!(rt;
        has(
            &text,
            b"Round 2, crane 1: A&lt;CU1234567 lifted to reach others"
        )
    );
    assert!(rt; has(&text, b"discharged: 2") && has(&text, b"loaded: 1"));
    Ok(())
}

#[test]
fn says_where_a_text_is_no_list(rt: HostRuntime) -> Result<(), Fail> {
    assert!(rt; line_of(rt.alloc(), "") == 1);
    assert!(rt;
        line_of(
            rt.alloc(),
            "cranes 1\nmoves 1\nrounds 1\nleast 1\n1 2 off 0\n"
        ) == 5
    );
    assert!(rt;
        line_of(
            rt.alloc(),
            "cranes 1\nmoves 1\nrounds 01\nleast 1\n1 1 off 0\n"
        ) == 3
    );
    Ok(())
}

#[test]
fn writes_its_picture_anew(rt: HostRuntime) -> Result<(), Fail> {
    let (status, text) = run(rt.alloc(), "")?;
    assert!(rt; status == Status::Fine);
    assert!(rt; text.as_slice() == b"written a/work.svg\n".as_slice());
    Ok(())
}

#[test]
fn keeps_what_another_wrote(rt: HostRuntime) -> Result<(), Fail> {
    let (status, text) = run(rt.alloc(), "<svg>mine")?;
    assert!(rt; status == Status::Input);
    assert!(rt; text.as_slice() == b"refused page a/work.svg\n".as_slice());
    Ok(())
}
