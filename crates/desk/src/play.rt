// What the lines of a script do to a held plan.
ghost use Rattle.std.specs.Prelude.{◌≡◌};
ghost use Rattle.edits.specs.Edits.{edit_reply};
ghost use Rattle.desk.specs.Desk.{reply_to, after_line, played_bytes};

use crate::answers::Answers;
use crate::{Desk, Pending};
use edits::{add, retime, withdraw};
use lines::Order;
use plan::Plan;
use task::{Fault, Refused};

// What comes of a line's order on a held plan: a line of no form is refused, and a listing is no edit.
fn reply_to(order: Option<Order>, plan: &mut Plan) -> Result<(), Refused>
    ensures { edit_reply result plan.new ≡ reply_to order plan.old }
{
    match order {
        Some(Order::Add(task)) => add(plan, task.name, task.times),
        Some(Order::Withdraw(name)) => withdraw(plan, name),
        Some(Order::Retime(task)) => retime(plan, task.name, task.times),
        Some(Order::List) => Ok(()),
        None => Err(Refused::from(Fault::Form)),
    }
}

// Carries out a line on the plan that is held, and answers it.
fn answer_line<R: Print>(answers: &mut Answers<'_, R>, plan: &mut Plan, line: &Pending)
    ensures { plan.new ≡ after_line line.now plan.old }
{
    let order = line.order();
    let reply = reply_to(order, plan);
    answers.tell(order, reply, plan);
}

// Takes the bytes of a script, and answers each line that ends among them.
pub fn play_bytes<R: Print>(answers: &mut Answers<'_, R>, desk: &mut Desk, bytes: &[u8])
    ensures { desk.new ≡ played_bytes desk.old bytes.now }
{
    for b in bytes {
        if *b == b'\n' {
            answer_line(answers, &mut desk.plan, &desk.line);
            desk.line = Pending::fresh();
        } else {
            desk.line.push(*b);
        }
    }
}
