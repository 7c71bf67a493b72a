// Names byte by byte, and a list of tasks one by one.
ghost use Rattle.std.specs.Prelude.{◌≡◌, []};
ghost use Rattle.task.specs.Faults.{fault_number};
ghost use Rattle.task.specs.Names.{name_byte, spelt};
ghost use Rattle.task.specs.Tasks.{first_fault};

use crate::{Fault, NAME_MOST, Task, task_fault};

// Whether a byte may stand in a name.
#[tactic(auto, unfolding(crate::specs::Names::name_byte))]
pub fn name_byte(b: u8) -> bool
    ensures { result ≡ name_byte b }
{
    matches!(b, b'a'..=b'z' | b'A'..=b'Z' | b'0'..=b'9' | b'-' | b'.')
}

// Whether `len` name bytes stand there, and zeros behind them.
pub fn spelt(bytes: [u8; NAME_MOST], len: usize) -> bool
    ensures { result ≡ spelt len bytes }
{
    if NAME_MOST < len {
        return false;
    }
    let (spelling, rest) = bytes.split_at(len);
    spelling.iter().all(|&b| name_byte(b)) && rest.iter().all(|&b| b == 0)
}

// The first fault down the list. A task's name is held to those before it.
pub fn first_fault(tasks: &[Task]) -> Result<(), Fault>
    ensures { fault_number result ≡ first_fault [] tasks.now }
{
    for (place, task) in tasks.iter().enumerate() {
        task_fault(&tasks[..place], *task)?;
    }
    Ok(())
}
