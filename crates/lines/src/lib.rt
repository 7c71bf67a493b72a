// One line of a timing sheet, or of a script of edits, by its form alone: document 01, "Sheet", "Sizes" and "Edits on a held plan".
#![tactic(auto)]

mod fields;
mod forms;
mod orders;

ghost use Rattle.std.specs.Prelude.{◌≡◌};
ghost use Rattle.lines.specs.Lines.{up_to, beyond, until_of, until_shown, runs_in};
ghost use Rattle.lines.specs.Forms.{line_of};
ghost use Rattle.lines.specs.Orders.{order_of};

use demand::Costs;
use forms::{Word, cost_form, fit_form, machine_form, part_form, word_of};
use orders::{Deed, deed_of, timed_form, withdraw_form};
use task::{Machine, Name, Part, Task};

/// What a line of a sheet says by its form alone: a machine, costs, a part, or a task's name with its part's, whose times stand above.
#[derive(Clone, Copy)]
pub enum Line {
    Machine(Machine),
    Cost(Costs),
    Part(Part),
    Fit { task: Name, part: Name },
}

/// What a line of a script asks for by its form alone.
#[derive(Clone, Copy)]
pub enum Order {
    Add(Task),
    Withdraw(Name),
    Retime(Task),
    List,
}

/// The run of s up to its first byte b, and what stands beyond that byte, where s has it.
// `run` and `others` say no more than `exact`: they are what a walk over the runs goes on by.
pub fn until(s: &[u8], b: u8) -> (&[u8], Option<&[u8]>)
    ensures exact { until_shown result ≡ until_of b s.now }
    ensures run { result.0.now ≡ up_to b s.now }
    ensures others { beyond b s.now ≡ runs_in b result.1 }
{
    match s.iter().position(|x| *x == b) {
        Some(e) => (&s[..e], Some(&s[e + 1..])),
        None => (s, None),
    }
}

/// What a line says.
#[tactic(auto, using(crate::proofs::FormLaws::form_none), unfolding(crate::specs::Forms::line_of))]
pub fn line_of(line: &[u8]) -> Option<Line>
    ensures exact { result ≡ line_of line.now }
{
    let (word, rest) = until(line, b'\t');
    let rest = rest?;
    match word_of(word)? {
        Word::Machine => machine_form(rest).map(Line::Machine),
        Word::Cost => cost_form(rest).map(Line::Cost),
        Word::Part => part_form(rest).map(Line::Part),
        Word::Fit => fit_form(rest),
    }
}

/// What a line of a script says.
#[tactic(auto, unfolding(crate::specs::Orders::order_of, crate::specs::Orders::list_form, crate::specs::Orders::timed_form, crate::specs::Orders::withdraw_form, crate::specs::Forms::part_form))]
pub fn order_of(line: &[u8]) -> Option<Order>
    ensures exact { result ≡ order_of line.now }
{
    let (word, rest) = until(line, b'\t');
    match deed_of(word)? {
        Deed::Add => timed_form(rest?).map(Order::Add),
        Deed::Withdraw => withdraw_form(rest?).map(Order::Withdraw),
        Deed::Retime => timed_form(rest?).map(Order::Retime),
        Deed::List => match rest {
            Some(_) => None,
            None => Some(Order::List),
        },
    }
}
