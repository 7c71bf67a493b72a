// What is wrong with an edit of a list of tasks, and the list after it.
ghost use Rattle.std.specs.Prelude.{◌≡◌, ◌<◌, ◌≤◌};
ghost use Rattle.task.specs.Faults.{fault_number};
ghost use Rattle.task.specs.Tasks.{list_of, tasks_most};
ghost use Rattle.walks.specs.Edits.{add, withdraw, retime, edited};
ghost use Rattle.edits.specs.Edits.{by_name, edit_fault};
ghost use Rattle.edits.specs.Ways.ListInArray.{Lists, removed};

use task::{Fault, Name, TASKS_MOST, Task, Tasks, own_fault, place_of, task_fault, well_formed};

// What is wrong with a task to add: what is wrong with it below those held, then that there are 64.
pub fn add_fault(task: Task, tasks: Tasks) -> Result<(), Fault>
    ensures { fault_number result ≡ edit_fault (add task) (list_of tasks) }
{
    task_fault(tasks.held(), task)?;
    if TASKS_MOST <= tasks.count {
        return Err(Fault::TooMany);
    }
    Ok(())
}

// What is wrong with a name to withdraw: its form, then that no task has it.
pub fn withdraw_fault(name: Name, tasks: Tasks) -> Result<(), Fault>
    ensures { fault_number result ≡ edit_fault (withdraw name) (list_of tasks) }
{
    if !well_formed(name) {
        return Err(Fault::Form);
    }
    if place_of(name, tasks).is_none() {
        return Err(Fault::Unknown);
    }
    Ok(())
}

// What is wrong with a task of other times: what is wrong with it by itself, then that no task has its name.
pub fn retime_fault(task: Task, tasks: Tasks) -> Result<(), Fault>
    ensures { fault_number result ≡ edit_fault (retime task) (list_of tasks) }
{
    own_fault(task)?;
    if place_of(task.name, tasks).is_none() {
        return Err(Fault::Unknown);
    }
    Ok(())
}

// One more at the end.
pub fn append(tasks: Tasks, task: Task) -> Tasks
    requires { (tasks.count ≤ tasks_most) × (edit_fault (add task) (list_of tasks) ≡ 0) }
    ensures { Lists result (edited by_name (add task) (list_of tasks)) }
{
    let mut next = tasks;
    next.list[tasks.count] = task;
    next.count += 1;
    next
}

// The task in the place of the one of its name.
pub fn replace(tasks: Tasks, task: Task) -> Tasks
    requires { (tasks.count ≤ tasks_most) × (edit_fault (retime task) (list_of tasks) ≡ 0) }
    ensures { Lists result (edited by_name (retime task) (list_of tasks)) }
{
    let place = place_of(task.name, tasks).unwrap();
    let mut next = tasks;
    next.list[place] = task;
    next
}

// The list without the task at place i, from 0: those behind it move one place up.
pub fn close_up(tasks: Tasks, i: usize) -> Tasks
    requires { (tasks.count ≤ tasks_most) × (i < tasks.count) }
    ensures { Lists result (removed i (list_of tasks)) }
{
    let mut next = tasks;
    next.list.copy_within(i + 1..tasks.count, i);
    next.count -= 1;
    next
}

// The list without the task of that name.
pub fn remove(tasks: Tasks, name: Name) -> Tasks
    requires { (tasks.count ≤ tasks_most) × (edit_fault (withdraw name) (list_of tasks) ≡ 0) }
    ensures { Lists result (edited by_name (withdraw name) (list_of tasks)) }
{
    let place = place_of(name, tasks).unwrap();
    close_up(tasks, place)
}
