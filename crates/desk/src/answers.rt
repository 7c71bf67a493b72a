// What is answered to a line, on standard output.
use lines::Order;
use listing::write_listing;
use plan::Plan;
use std::io;
use task::{Fault, Refused};

// The most bytes of a listing that is written.
const LISTING_ROOM: usize = 8192;

// A refusal: its number and what it carries.
pub fn refuse(rt: &impl Print, fault: Fault, carries: u64) -> io::Result<()> {
    let number = u64::from(fault);
    print!(rt; "refusal\t{number}\t{carries}\n")
}

// The listing of a plan; it is refused with its length, where it is longer than the room for it.
fn list(rt: &impl Print, plan: Plan) -> io::Result<()> {
    let mut buf = [0u8; LISTING_ROOM];
    let n = write_listing(plan, &mut buf);
    if LISTING_ROOM < n {
        return refuse(rt, Fault::TooShort, n as u64);
    }
    rt.write_all(&buf[..n])
}

// What came of a line: a refusal, the listing that it asks for, or that the edit is done.
pub fn tell(
    rt: &impl Print,
    order: Option<Order>,
    reply: Result<(), Refused>,
    plan: &Plan,
) -> io::Result<()> {
    if let Err(refused) = reply {
        return refuse(rt, refused.fault, refused.carries);
    }
    match order {
        Some(Order::List) => list(rt, *plan),
        _ => print!(rt; "ok\n"),
    }
}

// Where the answers go, and how that went so far. After an answer that could not be written there are no more: the plan that is held does not
// depend on who hears of it.
#[derive(Drop)]
pub struct Answers<'a, R> {
    rt: &'a R,
    outcome: io::Result<()>,
}

impl<'a, R: Print> Answers<'a, R> {
    pub fn new(rt: &'a R) -> Answers<'a, R> {
        Answers {
            rt,
            outcome: Ok(()),
        }
    }

    // Tells what came of a line.
    pub fn tell(&mut self, order: Option<Order>, reply: Result<(), Refused>, plan: &Plan) {
        if self.outcome.is_ok() {
            self.outcome = tell(self.rt, order, reply, plan);
        }
    }

    // Whether an answer could not be written.
    pub fn failed(&self) -> bool {
        self.outcome.is_err()
    }

    // The first failure to write, if there was one.
    pub fn outcome(self) -> io::Result<()> {
        self.outcome
    }
}
