// What a line of a script says by its form alone.
ghost use Rattle.std.specs.Prelude.{◌≡◌};
ghost use Rattle.lines.specs.Lines.{fields};
ghost use Rattle.lines.specs.Orders.{deed_of, timed_form, withdraw_form};

use crate::fields::name_of;
use crate::forms::part_form;
use crate::until;
use task::{Name, Task, task_of};

// What a line of a script asks for, by its first field.
#[derive(Clone, Copy)]
pub enum Deed {
    Add,
    Withdraw,
    Retime,
    List,
}

// What a first field asks for.
#[tactic(auto, using(crate::proofs::LineLaws::word_cases), unfolding(crate::specs::Orders::deed_of))]
pub fn deed_of(f: &[u8]) -> Option<Deed>
    ensures { result ≡ deed_of f.now }
{
    match f {
        b"add" => Some(Deed::Add),
        b"withdraw" => Some(Deed::Withdraw),
        b"retime" => Some(Deed::Retime),
        b"list" => Some(Deed::List),
        _ => None,
    }
}

// The task of an `add` or `retime` line whose fields stand in s: they have the form of a part's.
#[tactic(auto, unfolding(crate::specs::Orders::timed_form))]
pub fn timed_form(s: &[u8]) -> Option<Task>
    ensures { result ≡ timed_form (fields s.now) }
{
    let part = part_form(s)?;
    Some(task_of(part.name, part))
}

// The name of a `withdraw` line whose field stands in s.
#[tactic(auto, unfolding(crate::specs::Orders::withdraw_form))]
pub fn withdraw_form(s: &[u8]) -> Option<Name>
    ensures { result ≡ withdraw_form (fields s.now) }
{
    let (field, more) = until(s, b'\t');
    if more.is_some() {
        return None;
    }
    name_of(field)
}
