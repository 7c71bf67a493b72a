// The three edits on a held plan: document 01, "Edits on a held plan".
#![tactic(auto)]

mod lists;

ghost use Rattle.std.specs.Prelude.{◌≡◌};
ghost use Rattle.plan.specs.Plan.{plan_of};
ghost use Rattle.walks.specs.Edits.{Edit};
ghost use Rattle.edits.specs.Edits.{edit_reply, settled, edit_of};

use lists::{add_fault, append, remove, replace, retime_fault, withdraw_fault};
use plan::{Plan, plan_tasks};
use task::{Name, Refused, Task, Tasks, Times, state_fault};

// The plan of these tasks in the place of the one that is held; or that one as it is, with the walk's refusal.
fn replan(plan: &mut Plan, tasks: Tasks) -> Result<(), Refused>
    ensures { edit_reply result plan.new ≡ settled plan.old (plan_of plan.old.machine plan.old.costs tasks.count tasks.list) }
{
    *plan = plan_tasks(plan.machine, plan.costs, tasks)?;
    Ok(())
}

/// One task more, behind the others. It is refused for the plan's own fault, then for the task's form, its times, a name that is taken or for being the
/// 65th, all carrying 0; then for want of room, with the place, from 1, of the task that the walk over the new list sticks at. A refusal leaves the plan as it is.
pub fn add(plan: &mut Plan, name: Name, times: Times) -> Result<(), Refused>
    ensures exact { edit_reply result plan.new ≡ edit_of (Edit.add (record { name = name; times = times })) plan.old }
{
    state_fault(plan.machine, plan.costs, plan.tasks)?;
    let task = Task { name, times };
    add_fault(task, plan.tasks)?;
    let next = append(plan.tasks, task);
    replan(plan, next)
}

/// The plan without the task of that name, those behind it one place up. It is refused for the plan's own fault, then for the name's form or a name that
/// is not there, then for want of room, as in `add`.
pub fn withdraw(plan: &mut Plan, name: Name) -> Result<(), Refused>
    ensures exact { edit_reply result plan.new ≡ edit_of (Edit.withdraw name) plan.old }
{
    state_fault(plan.machine, plan.costs, plan.tasks)?;
    withdraw_fault(name, plan.tasks)?;
    let next = remove(plan.tasks, name);
    replan(plan, next)
}

/// The plan with other times for the task of that name, in its place. It is refused for the plan's own fault, then for the task's form, its times or a
/// name that is not there, then for want of room, as in `add`.
pub fn retime(plan: &mut Plan, name: Name, times: Times) -> Result<(), Refused>
    ensures exact { edit_reply result plan.new ≡ edit_of (Edit.retime (record { name = name; times = times })) plan.old }
{
    state_fault(plan.machine, plan.costs, plan.tasks)?;
    let task = Task { name, times };
    retime_fault(task, plan.tasks)?;
    let next = replace(plan.tasks, task);
    replan(plan, next)
}
