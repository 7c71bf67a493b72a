// The C=D walk and the plan that it gives: document 01, "The C=D walk" and "Edits on a held plan".
#![tactic(auto)]

mod layouts;
mod orders;
mod rows;
mod seats;
mod walk;

ghost use Rattle.std.specs.Prelude.{◌≡◌};
ghost use Rattle.plan.specs.Layout.{tasks_on, kept_piece};
ghost use Rattle.plan.specs.Plan.{plan_of, reached_of, plan_reply, reached_reply};

use demand::{Costs, Piece};
use layouts::{layout_of, tidy};
use orders::order_of;
pub use seats::Seat;
use seats::Seats;
use task::{CORES_MOST, Fault, Machine, Refused, Tasks, state_fault};
pub use walk::Going;
use walk::walk_over;

/// The most pieces of a plan: 64 tasks and 15 splits.
pub const PIECES_MOST: usize = 79;

/// The most pieces on one core of it.
pub const ROW_MOST: usize = 64;

// `kind` is a number: a plan made by hand may hold any, and a narrower type would ask more of who makes it.

/// A piece as the plan keeps it: its task's place, from 0, its kind's number (0 whole, 1 first, 2 last), and its figures.
#[derive(Clone, Copy)]
pub struct Stored {
    pub task: usize,
    pub kind: u64,
    pub budget: u64,
    pub window: u64,
    pub period: u64,
    pub jitter: u64,
    pub preempt: u64,
    pub migrate: u64,
}

// A count beside an array, and rows in one array: document 01's plan is one plain struct of a fixed size, and one made by hand may have any counts.

/// What the walk placed: the pieces in placement order; each core's row of piece numbers, 64 to a core, and how long it is; each core's word,
/// with a bit by place in the task list for every task that has a piece there. Zeros fill what is not used.
#[derive(Clone, Copy)]
pub struct Layout {
    pub count: usize,
    pub pieces: [Stored; PIECES_MOST],
    pub rows: [usize; CORES_MOST * ROW_MOST],
    pub lens: [usize; CORES_MOST],
    pub words: [u64; CORES_MOST],
}

/// A plan: machine, costs, task list, and what the walk over them placed.
#[derive(Clone, Copy)]
pub struct Plan {
    pub machine: Machine,
    pub costs: Costs,
    pub tasks: Tasks,
    pub layout: Layout,
}

/// A core's row on the walk: the numbers of its pieces, in placement order.
#[derive(Clone, Copy)]
pub struct Row {
    pub len: usize,
    pub numbers: [usize; ROW_MOST],
}

/// What a walk reached: the plan of all that it placed, and the place, from 0, of the task that it sticks at.
#[derive(Clone, Copy)]
pub struct Reached {
    pub plan: Plan,
    pub stuck: Option<usize>,
}

/// The plan of a machine, costs and a list of tasks, or where the walk sticks the plan of what it placed before, with the task that it sticks at. It is
/// refused for what `state_fault` finds, carrying 0.
pub fn plan_reached(machine: Machine, costs: Costs, tasks: Tasks) -> Result<Reached, Refused>
    ensures exact { reached_reply result ≡ reached_of machine costs tasks.count tasks.list }
{
    state_fault(machine, costs, tasks)?;
    let held = tasks.held();
    let order = order_of(held);
    let mut placed = Seats::new();
    let stuck = walk_over(machine, costs, held, &order[..held.len()], &mut placed);
    let plan = Plan {
        machine,
        costs,
        tasks: tidy(tasks),
        layout: layout_of(&placed),
    };
    Ok(Reached { plan, stuck })
}

/// The plan of a machine, costs and a list of tasks. It is refused for what `state_fault` finds, carrying 0; and where the walk sticks, for want of room,
/// with the place, from 1, of the task that it sticks at.
pub fn plan_tasks(machine: Machine, costs: Costs, tasks: Tasks) -> Result<Plan, Refused>
    ensures exact { plan_reply result ≡ plan_of machine costs tasks.count tasks.list }
{
    let reached = plan_reached(machine, costs, tasks)?;
    match reached.stuck {
        Some(place) => Err(Refused {
            fault: Fault::NoRoom,
            carries: place as u64 + 1,
        }),
        None => Ok(reached.plan),
    }
}

/// A piece that the plan keeps, as the verdict sees it.
pub fn stored_piece(stored: Stored) -> Piece
    ensures exact { result ≡ kept_piece stored }
{
    Piece::from(stored)
}

/// The number of tasks on a core, counted from 0: the ones of its word, and none past the sixteenth.
#[tactic(auto, unfolding(crate::specs::Layout::tasks_on))]
pub fn tasks_on(layout: Layout, core: usize) -> u64
    ensures exact { result ≡ tasks_on layout core }
{
    layout
        .words
        .get(core)
        .map_or(0, |word| u64::from(word.count_ones()))
}
