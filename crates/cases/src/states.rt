// Edits on states made by hand: document 01, "Edits on a held plan". No walk gave what is placed in them: an edit relies on machine, costs and task list alone.
use crate::plans::{alike, many, pair, show_counts, show_refusal, show_rows};
use crate::runs::{costs, free};
use demand::Costs;
use edits::{add, retime, withdraw};
use plan::{Plan, plan_tasks};
use std::io;
use task::{Machine, Name, Task, Tasks, Times, no_name};

// An edit of a held plan.
#[derive(Clone, Copy)]
pub enum Edit {
    Add(Name, Times),
    Withdraw(Name),
    Retime(Name, Times),
}

// A state that says of itself that seven pieces are placed, of the first and the third task on the first core, and has none.
fn by_hand(cores: usize, costs: Costs, tasks: Tasks) -> Option<Plan> {
    let one = Machine { cores: 1, grain: 1 };
    let Ok(nothing) = plan_tasks(one, free(), many(0, 1, 1, 0)) else {
        return None;
    };
    let mut layout = nothing.layout;
    layout.count = 7;
    layout.words[0] = 5;
    Some(Plan {
        machine: Machine { cores, grain: 1 },
        costs,
        tasks,
        layout,
    })
}

// The refusal, and the counts of the plan that is held then: of a refused edit the state's own. Of an accepted one also the rows.
fn show_edit(rt: &impl Print, case: &[u8], state: Option<Plan>, edit: Edit) -> io::Result<()> {
    let Some(mut plan) = state else {
        return Ok(());
    };
    rt.write_all(case)?;
    let reply = match edit {
        Edit::Add(name, times) => add(&mut plan, name, times),
        Edit::Withdraw(name) => withdraw(&mut plan, name),
        Edit::Retime(name, times) => retime(&mut plan, name, times),
    };
    match reply {
        Ok(()) => {
            show_counts(rt, plan)?;
            show_rows(rt, plan.layout)
        }
        Err(refused) => {
            show_refusal(rt, refused)?;
            show_counts(rt, plan)
        }
    }
}

fn name_at(place: usize) -> Name {
    let task = alike(place, 1, 1, 0);
    task.name
}

fn lasting(worst: u64) -> Times {
    let task = alike(0, worst, 10, 1);
    task.times
}

// Two tasks, the second with another name.
fn with_name(name: Name) -> Tasks {
    let mut tasks = many(2, 6, 10, 1);
    let times = lasting(6);
    tasks.list[1] = Task { name, times };
    tasks
}

// What the state itself breaks, before anything that is wrong with the edit: 1, 2, 6, then at the first bad task 8, 3 or 4.
fn faults(rt: &impl Print) -> io::Result<()> {
    let bad = costs(0, 0, 0, 100001, 0, 0);
    show_edit(
        rt,
        b"by hand, no cores",
        by_hand(0, bad, many(65, 6, 10, 1)),
        Edit::Add(no_name(), lasting(0)),
    )?;
    show_edit(
        rt,
        b"by hand, bad constant",
        by_hand(2, bad, many(65, 6, 10, 1)),
        Edit::Withdraw(no_name()),
    )?;
    show_edit(
        rt,
        b"by hand, sixty-five tasks",
        by_hand(2, free(), many(65, 0, 10, 1)),
        Edit::Retime(no_name(), lasting(0)),
    )?;
    show_edit(
        rt,
        b"by hand, a name of no form",
        by_hand(2, free(), with_name(no_name())),
        Edit::Add(no_name(), lasting(0)),
    )?;
    show_edit(
        rt,
        b"by hand, no time",
        by_hand(2, free(), pair(6, 10, 0, 10)),
        Edit::Withdraw(no_name()),
    )?;
    show_edit(
        rt,
        b"by hand, one name twice",
        by_hand(2, free(), with_name(name_at(0))),
        Edit::Withdraw(no_name()),
    )
}

// The edit's own: 8, 3, 4 or 5, 6, then 7 with the task's place in the new list.
fn own(rt: &impl Print) -> io::Result<()> {
    let two = by_hand(2, free(), many(2, 6, 10, 1));
    show_edit(rt, b"add no name", two, Edit::Add(no_name(), lasting(0)))?;
    show_edit(rt, b"add no time", two, Edit::Add(name_at(0), lasting(0)))?;
    show_edit(
        rt,
        b"add one that is there",
        two,
        Edit::Add(name_at(0), lasting(1)),
    )?;
    show_edit(
        rt,
        b"add a sixty-fifth",
        by_hand(2, free(), many(64, 1, 64, 0)),
        Edit::Add(name_at(64), lasting(10)),
    )?;
    show_edit(
        rt,
        b"add where no room is",
        by_hand(1, free(), many(1, 5, 10, 0)),
        Edit::Add(name_at(1), lasting(6)),
    )?;
    show_edit(rt, b"withdraw no name", two, Edit::Withdraw(no_name()))?;
    show_edit(
        rt,
        b"withdraw one that is not there",
        two,
        Edit::Withdraw(name_at(2)),
    )?;
    show_edit(
        rt,
        b"retime no name",
        two,
        Edit::Retime(no_name(), lasting(0)),
    )?;
    show_edit(
        rt,
        b"retime to no time",
        two,
        Edit::Retime(name_at(2), lasting(0)),
    )?;
    show_edit(
        rt,
        b"retime one that is not there",
        two,
        Edit::Retime(name_at(2), lasting(1)),
    )?;
    show_edit(
        rt,
        b"retime where no room is",
        by_hand(1, free(), many(2, 5, 10, 0)),
        Edit::Retime(name_at(0), lasting(6)),
    )
}

// Accepted: the plan is the walk's, whatever the state said of its own.
fn accepted(rt: &impl Print) -> io::Result<()> {
    show_edit(
        rt,
        b"add",
        by_hand(2, free(), many(2, 6, 10, 1)),
        Edit::Add(name_at(2), lasting(6)),
    )?;
    show_edit(
        rt,
        b"withdraw",
        by_hand(2, free(), many(3, 6, 10, 1)),
        Edit::Withdraw(name_at(1)),
    )?;
    show_edit(
        rt,
        b"retime",
        by_hand(2, free(), many(3, 6, 10, 1)),
        Edit::Retime(name_at(0), lasting(1)),
    )
}

pub fn states_by_hand(rt: &impl Print) -> io::Result<()> {
    faults(rt)?;
    own(rt)?;
    accepted(rt)
}
