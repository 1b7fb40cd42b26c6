//! What is printed of the tasks of cranes.
ghost use Rattle.std.specs.Prelude.{◌≡◌, IfOk, length};
ghost use Rattle.crane_lists.specs.Rounds as rounds;
ghost use Rattle.crane_lists.specs.Tasks.{tasks_with};
ghost use Rattle.work_lists.specs.Shown.{cell_of, id_of, shown_by, shown_round, shown_rounds};

use crane_lists::{ContainerList2, Round, Task};
use std::alloc::Global;
use stow_data::{Cargo, ContainerNo, CoverNo, Name, NoMemory, PlaceNo, Seq, Ship};
use stow_report::{CraneMove, CraneRound, CraneRounds};
use voyage_meaning::{Move, MoveList};

/// Moves with what each lifts or puts.
pub fn tasks_with(
    alloc: Global,
    moves: &MoveList,
    lifted: &ContainerList2,
) -> Result<Seq<Task>, NoMemory>
    requires { length lifted.now ≡ length moves.now }
    ensures { IfOk result (λ tasks. tasks ≡ tasks_with moves.now lifted.now) }
{
    let mut tasks = Seq::new(alloc);
    for i in 0..moves.len() {
        tasks.push(Task {
            step: *moves.at(i),
            container: *lifted.at(i),
        })?;
    }
    Ok(tasks)
}

/// The task at a place of a list; a cover move past its end.
fn task_at(tasks: &[Task], i: usize) -> Task
    ensures { result ≡ rounds.task_at tasks.now i }
{
    match tasks.get(i) {
        Some(task) => *task,
        None => Task {
            step: Move::OffCover(CoverNo(0)),
            container: None,
        },
    }
}

/// Bay, row and tier number of a place; zeros past the last one.
fn cell_of(ship: &Ship, p: PlaceNo) -> (u32, u32, u32)
    ensures { result ≡ cell_of ship.now p }
{
    if p.0 < ship.places() {
        ship.number_of_place(p)
    } else {
        (0, 0, 0)
    }
}

/// The number of a container, if there is one.
fn id_of(cargo: &Cargo, c: Option<ContainerNo>) -> Name
    ensures { result ≡ id_of cargo.now c }
{
    match c {
        Some(c) if c.0 < cargo.len() => cargo.container(c).id.copy(),
        _ => Name::of(b""),
    }
}

/// What a crane does.
fn shown(ship: &Ship, cargo: &Cargo, step: Move, container: Option<ContainerNo>) -> CraneMove
    ensures { result ≡ shown_by ship.now cargo.now step container }
{
    match step {
        Move::Lift(p) => CraneMove::Lift {
            cell: cell_of(ship, p),
            id: id_of(cargo, container),
        },
        Move::Put(_, p) => CraneMove::Put {
            cell: cell_of(ship, p),
            id: id_of(cargo, container),
        },
        Move::OffCover(k) => CraneMove::Off { cover: k.0 },
        Move::OnCover(k) => CraneMove::On { cover: k.0 },
    }
}

/// What the cranes do in a round.
fn shown_round(
    alloc: Global,
    ship: &Ship,
    cargo: &Cargo,
    tasks: &[Task],
    round: &[usize],
) -> Result<CraneRound, NoMemory>
    ensures { IfOk result (λ moves. moves ≡ shown_round ship.now cargo.now tasks.now round.now) }
{
    let mut moves = CraneRound::new(alloc);
    for i in round {
        let task = task_at(tasks, *i);
        moves.push(shown(ship, cargo, task.step, task.container))?;
    }
    Ok(moves)
}

/// What they do in all rounds.
pub fn shown_rounds(
    alloc: Global,
    ship: &Ship,
    cargo: &Cargo,
    tasks: &[Task],
    rounds: &[Round],
) -> Result<CraneRounds, NoMemory>
    ensures { IfOk result (λ shown. shown ≡ shown_rounds ship.now cargo.now tasks.now rounds.now) }
{
    let mut shown = CraneRounds::new(alloc);
    for round in rounds {
        shown.push(shown_round(alloc, ship, cargo, tasks, round.as_slice())?)?;
    }
    Ok(shown)
}
