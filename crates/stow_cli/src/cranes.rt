//! `stow cranes`: the work list of a call.
ghost use Rattle.std.specs.Prelude.{◌≡◌, ◌<◌, ◌≤◌, ◌-◌, IfOk, IfErr, length};
ghost use Rattle.stow_io.specs.Causes.{Rose};
ghost use Rattle.voyage_files.specs.Booked.{IsBooked};
ghost use Rattle.voyage_files.specs.Named.{names_of, IsStop, IsQuiet};
ghost use Rattle.stow_cli.specs.Checks.{IsFileName};
ghost use Rattle.stow_cli.specs.Cranes.{IsCranesRead, IsCranesTo, IsShared};

use crate::departures::read_departures;
use crate::sharing::answer_files;
use std::alloc::Global;
use stow_data::{CallNo, NoMemory};
use stow_io::Folder;
use voyage_files::{Answer, BookedVoyage, Found, Inputs, ReadStop, read_inputs_at};

/// The moves of a call of the voyage with the departures that stand in the departure files, shared out to so many cranes.
pub fn cranes<'a, F: Folder>(
    alloc: Global,
    inputs: Inputs<'a>,
    call: CallNo,
    count: u32,
    folder: &mut F,
) -> Result<Answer, ReadStop<'a>>
    requires from { 1 ≤ call }
    requires some_crane { 1 ≤ count }
    ensures stays { F.files folder.new ≡ F.files folder.old }
    ensures gives { IfOk result (IsCranesTo (names_of inputs.entry) call count (F.files folder.old)) }
    ensures later { F.faults folder.old ≤ F.faults folder.new }
    ensures quiet { IsQuiet result (F.faults folder.old) (F.faults folder.new) }
    ensures failed { IfErr result (IsStop (Rose (F.faults folder.old) (F.faults folder.new)) (IsCranesRead (names_of inputs.entry) call (F.files folder.old))) }
{
    let voyage = match read_inputs_at(alloc, inputs, Some(call), folder)? {
        Found::Voyage(voyage) => voyage,
        Found::Refused(answer) => return Ok(answer),
    };
    let answer = share_voyage(alloc, inputs.base, &voyage, call, count, folder);
    drop(voyage);
    answer
}

/// What a voyage is answered: all departure files are read before any is looked at.
fn share_voyage<'a, F: Folder>(
    alloc: Global,
    base: &str,
    v: &BookedVoyage,
    call: CallNo,
    count: u32,
    folder: &mut F,
) -> Result<Answer, ReadStop<'a>>
    requires booked { IsBooked v.now }
    requires from { 1 ≤ call }
    requires to { call < length v.now.cargo.rotation }
    requires some_crane { 1 ≤ count }
    ensures stays { F.files folder.new ≡ F.files folder.old }
    ensures gives { IfOk result (IsShared base.now (F.files folder.old) call count v.now) }
    ensures later { F.faults folder.old ≤ F.faults folder.new }
    ensures quiet { IsQuiet result (F.faults folder.old) (F.faults folder.new) }
    ensures failed { IfErr result (IsStop (Rose (F.faults folder.old) (F.faults folder.new)) (IsFileName base.now (length v.now.cargo.rotation - 1))) }
{
    let texts = read_departures(alloc, base, v.cargo.calls() - 1, folder)?;
    match answer_files(alloc, v, texts.as_slice(), call, count) {
        Ok(answer) => Ok(answer),
        Err(NoMemory) => Err(ReadStop::NoMemory),
    }
}
