// What stands above a line, and what the line makes of it.
ghost use Rattle.std.specs.Prelude.{◌≡◌, ◌+◌, ◌<◌, [], length, min, take, slice_set, OnOk, MatchResult};
ghost use Rattle.task.specs.Faults.{number_of, fault_number};
ghost use Rattle.task.specs.Tasks.{tasks_most, task_of};
ghost use Rattle.lines.specs.Forms.{line_of};
ghost use Rattle.sheet.specs.Sheet.{Above, top, machine_fault, cost_fault, part_fault, fit_fault, line_fault, part_named, after};
ghost use Rattle.sheet.specs.Ways.ReaderHolds.{stage_number, list_in, Carries};

use demand::{Costs, no_costs};
use lines::{Line, line_of};
use task::{
    Fault, Machine, Name, Part, TASKS_MOST, Task, no_machine, no_name, no_task, no_times,
    same_name, task_of, whole_piece,
};

// How far the lines above have come: it says which lines may stand next.
#[derive(Clone, Copy, PartialEq, Eq, PartialOrd, Ord)]
pub enum Stage {
    AtTop,
    BelowMachine,
    AmongParts,
    AmongFits,
}

// A list that grows within a fixed room: the first `count` of `list`.
#[derive(Clone, Copy)]
pub struct Listed<T> {
    pub count: usize,
    pub list: [T; TASKS_MOST],
}

impl<T: Copy> Listed<T> {
    // The empty list, with `none` in each place.
    pub fn empty(none: T) -> Listed<T>
        ensures { result ≡ list_in none [] }
    {
        Listed {
            count: 0,
            list: [none; TASKS_MOST],
        }
    }

    // What the list holds.
    pub fn held(&self) -> &[T]
        ensures items { result.now ≡ take self.now.count self.now.list }
        ensures len { length result.now ≡ min self.now.count tasks_most }
    {
        &self.list[..self.count.min(TASKS_MOST)]
    }

    // One more.
    pub fn push(&mut self, item: T)
        requires { self.old.count < tasks_most }
        ensures count { self.new.count ≡ self.old.count + 1 }
        ensures list { self.new.list ≡ slice_set self.old.list self.old.count item }
    {
        self.list[self.count] = item;
        self.count += 1;
    }
}

// What stands above a line.
#[derive(Clone, Copy)]
pub struct Draft {
    pub stage: Stage,
    pub machine: Machine,
    pub costs: Costs,
    pub parts: Listed<Part>,
    pub tasks: Listed<Task>,
}

impl Draft {
    // What stands above the first line: nothing.
    pub fn top() -> Draft
        ensures { Carries top result }
    {
        let no_part = Part {
            name: no_name(),
            times: no_times(),
        };
        Draft {
            stage: Stage::AtTop,
            machine: no_machine(),
            costs: no_costs(),
            parts: Listed::empty(no_part),
            tasks: Listed::empty(no_task()),
        }
    }

    // The next line is read: it is refused, or stands above the next.
    #[tactic(auto, using(crate::proofs::StandLaws::line_cases), unfolding(crate::specs::Sheet::line_fault, crate::specs::Sheet::after))]
    pub fn read(&mut self, line: &[u8]) -> Result<(), Fault>
        ensures fault { (a : Above) → Carries a self.old → fault_number result ≡ line_fault a (line_of line.now) }
        ensures after { (a : Above) → Carries a self.old → OnOk result (Carries (after a (line_of line.now)) self.new) }
    {
        match line_of(line) {
            Some(Line::Machine(machine)) => {
                machine_fault(self.stage, machine)?;
                self.machine = machine;
                self.stage = Stage::BelowMachine;
            }
            Some(Line::Cost(costs)) => {
                cost_fault(self.stage, costs)?;
                self.costs = costs;
                self.stage = Stage::AmongParts;
            }
            Some(Line::Part(part)) => {
                part_fault(self.stage, part, self.parts.held())?;
                self.parts.push(part);
            }
            Some(Line::Fit { task, part }) => {
                let task = fitted(self.stage, task, part, self.parts.held(), self.tasks.held())?;
                self.tasks.push(task);
                self.stage = Stage::AmongFits;
            }
            None => return Err(Fault::Form),
        }
        Ok(())
    }
}

// What is wrong with a `machine` line.
#[tactic(auto, unfolding(crate::specs::Sheet::machine_fault))]
pub fn machine_fault(stage: Stage, machine: Machine) -> Result<(), Fault>
    ensures { fault_number result ≡ machine_fault (stage_number stage) machine }
{
    if stage != Stage::AtTop {
        return Err(Fault::Form);
    }
    if !task::machine_within(machine) {
        return Err(Fault::Machine);
    }
    Ok(())
}

// What is wrong with a `cost` line.
#[tactic(auto, unfolding(crate::specs::Sheet::cost_fault))]
pub fn cost_fault(stage: Stage, costs: Costs) -> Result<(), Fault>
    ensures { fault_number result ≡ cost_fault (stage_number stage) costs }
{
    if stage != Stage::BelowMachine {
        return Err(Fault::Form);
    }
    if !demand::costs_within(costs) {
        return Err(Fault::Costs);
    }
    Ok(())
}

// What is wrong with a `part` line below these parts.
#[tactic(auto, unfolding(crate::specs::Sheet::part_fault))]
pub fn part_fault(stage: Stage, part: Part, parts: &[Part]) -> Result<(), Fault>
    ensures { fault_number result ≡ part_fault (stage_number stage) part parts.now }
{
    if stage != Stage::AmongParts {
        return Err(Fault::Form);
    }
    if !demand::within_sizes(whole_piece(part.times)) {
        return Err(Fault::Times);
    }
    if parts.iter().any(|other| same_name(part.name, other.name)) {
        return Err(Fault::Twin);
    }
    if TASKS_MOST <= parts.len() {
        return Err(Fault::TooMany);
    }
    Ok(())
}

// The task of a `fit` line below these parts and tasks, or what is wrong with it.
#[tactic(auto, unfolding(crate::specs::Sheet::fit_fault))]
pub fn fitted(
    stage: Stage,
    task: Name,
    part: Name,
    parts: &[Part],
    tasks: &[Task],
) -> Result<Task, Fault>
    ensures { MatchResult result (λ t. (0 ≡ fit_fault (stage_number stage) task part parts.now tasks.now) × (t ≡ task_of task (part_named part parts.now)))
        (λ f. number_of f ≡ fit_fault (stage_number stage) task part parts.now tasks.now) }
{
    if stage < Stage::AmongParts {
        return Err(Fault::Form);
    }
    if tasks.iter().any(|other| same_name(task, other.name)) {
        return Err(Fault::Twin);
    }
    let Some(source) = parts.iter().find(|other| same_name(part, other.name)) else {
        return Err(Fault::Unknown);
    };
    if TASKS_MOST <= tasks.len() {
        return Err(Fault::TooMany);
    }
    Ok(task_of(task, *source))
}
