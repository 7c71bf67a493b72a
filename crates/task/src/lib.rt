// Names, times, tasks and the machine, and the rules that they keep: document 01, "Sizes" and "Refusal numbers".
#![tactic(auto)]

mod faults;
mod names;

ghost use Rattle.std.specs.Prelude.{◌≡◌, take};
ghost use Rattle.task.specs.Names.{no_name, formed, same_name};
ghost use Rattle.task.specs.Faults.{fault_number};
ghost use Rattle.task.specs.Tasks.{no_times, no_task, no_machine, task_of, whole_piece, sized_machine, list_of, place_of, place_number, own_fault, fault_of, state_fault};

use demand::{Costs, Kind, Piece};
pub use faults::{Fault, Refused};

/// The most bytes that a name has.
pub const NAME_MOST: usize = 24;

/// The most tasks of a list, and the most parts of a sheet.
pub const TASKS_MOST: usize = 64;

/// The most cores of a machine.
pub const CORES_MOST: usize = 16;

/// A name: its length, its bytes, and zeros to 24.
#[derive(Clone, Copy, PartialEq, Eq)]
pub struct Name {
    pub len: usize,
    pub bytes: [u8; NAME_MOST],
}

/// The times of a part or a task: C, D, T, J, P and M.
#[derive(Clone, Copy, PartialEq, Eq)]
pub struct Times {
    pub worst: u64,
    pub deadline: u64,
    pub period: u64,
    pub jitter: u64,
    pub preempt: u64,
    pub migrate: u64,
}

/// A part: a name, and the times that a task fitted with it has.
#[derive(Clone, Copy, PartialEq, Eq)]
pub struct Part {
    pub name: Name,
    pub times: Times,
}

// A list is a count beside an array: document 01's plan is one plain struct of a fixed size, and one made by hand may have any count. What reads a list of
// tasks takes the slice that `Tasks::held` gives.

/// A task: a name with its times.
#[derive(Clone, Copy, PartialEq, Eq)]
pub struct Task {
    pub name: Name,
    pub times: Times,
}

/// A list of tasks: the first `count` of `list`.
#[derive(Clone, Copy)]
pub struct Tasks {
    pub count: usize,
    pub list: [Task; TASKS_MOST],
}

/// m cores, and the grain of splits.
#[derive(Clone, Copy, PartialEq, Eq)]
pub struct Machine {
    pub cores: usize,
    pub grain: u64,
}

// What is not said has a name of its own here, as it has in the definitions: `Default` would say no more.

/// No name: no byte, and 24 zeros.
pub fn no_name() -> Name
    ensures exact { result ≡ no_name }
{
    Name {
        len: 0,
        bytes: [0u8; NAME_MOST],
    }
}

/// No times: zeros.
pub fn no_times() -> Times
    ensures exact { result ≡ no_times }
{
    Times {
        worst: 0,
        deadline: 0,
        period: 0,
        jitter: 0,
        preempt: 0,
        migrate: 0,
    }
}

/// No task: no name and no times.
pub fn no_task() -> Task
    ensures exact { result ≡ no_task }
{
    Task {
        name: no_name(),
        times: no_times(),
    }
}

/// No machine: no core, and a grain of 0.
pub fn no_machine() -> Machine
    ensures exact { result ≡ no_machine }
{
    Machine { cores: 0, grain: 0 }
}

/// The task of that name fitted with a part.
pub fn task_of(name: Name, part: Part) -> Task
    ensures exact { result ≡ task_of name part }
{
    Task {
        name,
        times: part.times,
    }
}

/// Whether a name has its form: 1 to 24 letters, digits, hyphens and full stops, and zeros behind them.
#[tactic(auto, unfolding(crate::specs::Names::formed))]
pub fn well_formed(name: Name) -> bool
    ensures exact { result ≡ formed name }
{
    1 <= name.len && names::spelt(name.bytes, name.len)
}

/// Whether two names are equal: their lengths and all their bytes are.
#[tactic(auto, using(crate::proofs::NameLaws::pointwise_same), unfolding(crate::specs::Names::same_name))]
pub fn same_name(a: Name, b: Name) -> bool
    ensures exact { result ≡ same_name a b }
{
    a == b
}

/// The whole piece of a task with these times.
#[tactic(auto, unfolding(crate::specs::Tasks::whole_piece))]
pub fn whole_piece(times: Times) -> Piece
    ensures exact { result ≡ whole_piece times }
{
    Piece {
        kind: Kind::Whole,
        budget: times.worst,
        window: times.deadline,
        period: times.period,
        jitter: times.jitter,
        preempt: times.preempt,
        migrate: times.migrate,
    }
}

impl Tasks {
    /// The tasks that it holds: the first `count`, or all of them where it says more.
    pub fn held(&self) -> &[Task]
        ensures exact { result.now ≡ list_of self.now }
    {
        &self.list[..self.count.min(TASKS_MOST)]
    }
}

/// The place, from 0, of the task of that name.
pub fn place_of(name: Name, tasks: Tasks) -> Option<usize>
    ensures exact { place_number result ≡ place_of 1 name (take tasks.count tasks.list) }
{
    tasks
        .held()
        .iter()
        .position(|task| same_name(name, task.name))
}

/// What is wrong with a task by itself: its name's form, then its times' sizes.
pub fn own_fault(task: Task) -> Result<(), Fault>
    ensures exact { fault_number result ≡ own_fault task }
{
    if !well_formed(task.name) {
        return Err(Fault::Form);
    }
    if !demand::within_sizes(whole_piece(task.times)) {
        return Err(Fault::Times);
    }
    Ok(())
}

/// What is wrong with a task below others: what is wrong with it by itself, then a name that one of them has.
pub fn task_fault(above: &[Task], task: Task) -> Result<(), Fault>
    ensures exact { fault_number result ≡ fault_of above.now task }
{
    own_fault(task)?;
    if above.iter().any(|other| same_name(task.name, other.name)) {
        return Err(Fault::Twin);
    }
    Ok(())
}

/// What is wrong with a machine, costs and a list of tasks: a bad machine, bad costs, over 64 tasks, then at the first bad task its form, its times or
/// a name that one above it has.
#[tactic(auto, unfolding(crate::specs::Tasks::state_fault))]
pub fn state_fault(machine: Machine, costs: Costs, tasks: Tasks) -> Result<(), Fault>
    ensures exact { fault_number result ≡ state_fault machine costs tasks.count tasks.list }
{
    if !machine_within(machine) {
        return Err(Fault::Machine);
    }
    if !demand::costs_within(costs) {
        return Err(Fault::Costs);
    }
    if TASKS_MOST < tasks.count {
        return Err(Fault::TooMany);
    }
    names::first_fault(tasks.held())
}

/// Whether m and the grain are within their sizes.
#[tactic(auto, unfolding(crate::specs::Tasks::sized_machine))]
pub fn machine_within(machine: Machine) -> bool
    ensures exact { result ≡ sized_machine machine }
{
    (1..=CORES_MOST).contains(&machine.cores) && (1..=demand::TIME_MOST).contains(&machine.grain)
}
