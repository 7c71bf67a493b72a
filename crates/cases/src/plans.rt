// Plans: the whole of a small one, and the counts of a large one.
ghost use Rattle.std.specs.Prelude.{◌<◌};
ghost use Rattle.task.specs.Tasks.{cores_most};

use demand::Costs;
use plan::{Layout, PIECES_MOST, Plan, ROW_MOST, Stored, plan_tasks, tasks_on};
use std::io;
use task::{CORES_MOST, Machine, NAME_MOST, Name, Refused, TASKS_MOST, Task, Tasks, Times};

// A task named by its place, of window and period d, with the migration charge given.
pub fn alike(place: usize, worst: u64, d: u64, migrate: u64) -> Task {
    let mut bytes = [0u8; NAME_MOST];
    bytes[0] = b't';
    bytes[1] = b'0' + (place / 10 % 10) as u8;
    bytes[2] = b'0' + (place % 10) as u8;
    let name = Name { len: 3, bytes };
    let times = Times {
        worst,
        deadline: d,
        period: d,
        jitter: 0,
        preempt: 0,
        migrate,
    };
    Task { name, times }
}

// So many tasks alike, up to 64.
pub fn many(count: usize, worst: u64, d: u64, migrate: u64) -> Tasks {
    let mut list = [alike(0, worst, d, migrate); TASKS_MOST];
    for (place, task) in list.iter_mut().enumerate() {
        *task = alike(place, worst, d, migrate);
    }
    Tasks { count, list }
}

// Two tasks.
pub fn pair(worst: u64, d: u64, other: u64, e: u64) -> Tasks {
    let mut tasks = many(2, worst, d, 0);
    tasks.list[1] = alike(1, other, e, 0);
    tasks
}

pub fn field(rt: &impl Print, n: u64) -> io::Result<()> {
    print!(rt; "\t{n}")
}

// One piece: its core from 1, its task's place from 1, kind, budget and window.
fn show_piece(rt: &impl Print, core: usize, piece: Stored) -> io::Result<()> {
    print!(rt; "piece")?;
    field(rt, core as u64 % 100 + 1)?;
    field(rt, piece.task as u64 % 100 + 1)?;
    field(rt, piece.kind)?;
    field(rt, piece.budget)?;
    field(rt, piece.window)?;
    print!(rt; "\n")
}

// A core's row, in placement order, as far as it names pieces.
fn show_row(rt: &impl Print, layout: Layout, core: usize) -> io::Result<()>
    requires { core < cores_most }
{
    let len = layout.lens[core].min(ROW_MOST);
    for place in 0..len {
        let number = layout.rows[core * ROW_MOST + place];
        if PIECES_MOST <= number {
            return Ok(());
        }
        show_piece(rt, core, layout.pieces[number])?;
    }
    Ok(())
}

// The plan's counts: tasks, pieces, and the ones of each core's word.
pub fn show_counts(rt: &impl Print, plan: Plan) -> io::Result<()> {
    let layout = plan.layout;
    let tasks = plan.tasks;
    print!(rt; "\tplan")?;
    field(rt, tasks.count as u64)?;
    field(rt, layout.count as u64)?;
    for core in 0..plan.machine.cores.min(CORES_MOST) {
        field(rt, tasks_on(layout, core))?;
    }
    print!(rt; "\n")
}

// A refusal's number and what it carries.
pub fn show_refusal(rt: &impl Print, refused: Refused) -> io::Result<()> {
    print!(rt; "\trefusal")?;
    field(rt, u64::from(refused.fault))?;
    field(rt, refused.carries)
}

// All rows of a plan.
pub fn show_rows(rt: &impl Print, layout: Layout) -> io::Result<()> {
    for core in 0..CORES_MOST {
        show_row(rt, layout, core)?;
    }
    Ok(())
}

// The counts, or the refusal.
pub fn show_plan(
    rt: &impl Print,
    case: &[u8],
    cores: usize,
    costs: Costs,
    tasks: Tasks,
    whole: bool,
) -> io::Result<()> {
    rt.write_all(case)?;
    match plan_tasks(Machine { cores, grain: 1 }, costs, tasks) {
        Ok(plan) => {
            show_counts(rt, plan)?;
            if whole {
                show_rows(rt, plan.layout)?;
            }
            Ok(())
        }
        Err(refused) => {
            show_refusal(rt, refused)?;
            print!(rt; "\n")
        }
    }
}
