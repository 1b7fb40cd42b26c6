//! What is printed of an answer.
use itoa::Buffer;
use plan_files::PlanNo;
use std::alloc::Global;
use stow_data::{Bytes, CallNo, NoMemory, PlaceNo, Plan, Ship};
use stow_report::{Line, plan_line, refusal};
use stowage_rules::RuleBroken;

/// Appends a text.
pub fn say(out: &mut Bytes, text: &str) -> Result<(), NoMemory> {
    out.extend(text.as_bytes())
}

/// Appends a blank and a number.
pub fn say_number(out: &mut Bytes, number: u64) -> Result<(), NoMemory> {
    out.push(b' ')?;
    out.extend(Buffer::new().format(number).as_bytes())
}

/// Appends a word, the number of a call and a colon.
pub fn say_call(out: &mut Bytes, word: &str, call: CallNo) -> Result<(), NoMemory> {
    say(out, word)?;
    say_number(out, u64::from(call.0))?;
    say(out, ":")
}

/// Appends a word, a number and a line feed.
pub fn say_count(out: &mut Bytes, word: &str, count: u64) -> Result<(), NoMemory> {
    say(out, word)?;
    say_number(out, count)?;
    say(out, "\n")
}

/// Appends what stands at a place, if something does.
fn say_place(out: &mut Bytes, plan: &Plan, p: u32) -> Result<(), NoMemory> {
    if p as usize >= plan.len() {
        return Ok(());
    }
    let Some(c) = plan.at(PlaceNo(p)) else {
        return Ok(());
    };
    say_number(out, u64::from(p))?;
    out.push(b':')?;
    out.extend(Buffer::new().format(c.0).as_bytes())
}

/// Appends the filled places of a plan with their containers, and a line feed.
pub fn say_plan(out: &mut Bytes, ship: &Ship, plan: &Plan) -> Result<(), NoMemory> {
    for p in 0..ship.places() {
        say_place(out, plan, p)?;
    }
    say(out, "\n")
}

/// Appends the line of a refusal.
pub fn say_line(alloc: Global, out: &mut Bytes, line: &Line) -> Result<(), NoMemory> {
    let text = refusal(alloc, line)?;
    out.extend(text.as_slice())
}

/// Appends the line of departure files that are refused.
pub fn say_plan_no(alloc: Global, out: &mut Bytes, no: PlanNo) -> Result<(), NoMemory> {
    say_line(alloc, out, &plan_line(alloc, no)?)
}

/// Appends the line of a rule that the departure of a call breaks.
pub fn say_rule(
    alloc: Global,
    out: &mut Bytes,
    call: CallNo,
    rule: RuleBroken,
) -> Result<(), NoMemory> {
    say_plan_no(alloc, out, PlanNo::Rule { call, rule })
}
