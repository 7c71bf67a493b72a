// One line a case: its name, a tab, and the answer.
ghost use Rattle.std.specs.Prelude.{◌≤◌};
ghost use Rattle.demand.specs.Sizes.{run_most};

use crate::lent::{LENT_MOST, judge_first};
use demand::{Costs, Piece, RUN_MOST, Record, Refusal, Run, Verdict, records_of};
use std::io;
use task::Refused;

pub fn name(rt: &impl Print, text: &[u8]) -> io::Result<()> {
    rt.write_all(text)?;
    print!(rt; "\t")
}

fn number(rt: &impl Print, n: u64) -> io::Result<()> {
    print!(rt; "\t{n}\n")
}

// A refusal's number, and what it carries.
pub fn numbers(rt: &impl Print, refusal: u64, carries: u64) -> io::Result<()> {
    print!(rt; "refusal\t{refusal}")?;
    number(rt, carries)
}

fn refusal(rt: &impl Print, why: Refusal) -> io::Result<()> {
    let refused = Refused::from(why);
    numbers(rt, u64::from(refused.fault), refused.carries)
}

fn verdict(rt: &impl Print, v: Verdict) -> io::Result<()> {
    match v {
        Verdict::Passes => print!(rt; "passes\n"),
        Verdict::Overloaded(t) => {
            print!(rt; "overloaded")?;
            number(rt, t)
        }
        Verdict::Undecided => print!(rt; "undecided\n"),
    }
}

fn figure(rt: &impl Print, f: Result<Option<u64>, Refusal>) -> io::Result<()> {
    match f {
        Ok(Some(n)) => number(rt, n),
        Ok(None) => print!(rt; "none\n"),
        Err(why) => refusal(rt, why),
    }
}

fn answer(rt: &impl Print, a: Result<Verdict, Refusal>) -> io::Result<()> {
    match a {
        Ok(v) => verdict(rt, v),
        Err(why) => refusal(rt, why),
    }
}

pub fn show_verdict(rt: &impl Print, case: &[u8], costs: Costs, run: Run) -> io::Result<()> {
    name(rt, case)?;
    answer(rt, verdicts::judge(costs, run))
}

// The same of records that are lent.
pub fn show_records(
    rt: &impl Print,
    case: &[u8],
    costs: Costs,
    records: &[Record],
) -> io::Result<()> {
    name(rt, case)?;
    answer(rt, verdicts::judge_records(costs, records))
}

// The same of the first n of these pieces, lent.
pub fn show_lent(
    rt: &impl Print,
    case: &[u8],
    costs: Costs,
    records: [Piece; LENT_MOST],
    n: usize,
) -> io::Result<()>
    requires { n ≤ 80 }
{
    name(rt, case)?;
    answer(rt, judge_first(costs, records, n))
}

// How many of a run's pieces there are.
fn taken(run: Run) -> usize
    ensures { result ≤ run_most }
{
    run.count.min(RUN_MOST)
}

pub fn show_busy(rt: &impl Print, case: &[u8], costs: Costs, run: Run) -> io::Result<()> {
    name(rt, case)?;
    print!(rt; "busy length")?;
    let records = records_of(run);
    figure(rt, verdicts::busy_length(costs, &records[..taken(run)]))
}

pub fn show_demand(rt: &impl Print, case: &[u8], costs: Costs, run: Run, t: u64) -> io::Result<()> {
    name(rt, case)?;
    print!(rt; "demand at {t}")?;
    let records = records_of(run);
    figure(rt, verdicts::demand_of(costs, &records[..taken(run)], t))
}

pub fn show_tight(rt: &impl Print, case: &[u8], costs: Costs, run: Run) -> io::Result<()> {
    name(rt, case)?;
    print!(rt; "tight window")?;
    let records = records_of(run);
    figure(rt, verdicts::tight_window(costs, &records[..taken(run)]))
}

pub fn show_split(
    rt: &impl Print,
    case: &[u8],
    costs: Costs,
    run: Run,
    task: Piece,
    grain: u64,
) -> io::Result<()> {
    let records = records_of(run);
    show_split_beside(rt, case, costs, &records[..taken(run)], task, grain)
}

// The first piece's budget and its window, beside the records that are lent.
pub fn show_split_beside(
    rt: &impl Print,
    case: &[u8],
    costs: Costs,
    records: &[Record],
    task: Piece,
    grain: u64,
) -> io::Result<()> {
    name(rt, case)?;
    print!(rt; "split")?;
    match splits::split_records(costs, records, task, grain) {
        Ok(Some(cut)) => {
            print!(rt; "\t{}", cut.budget)?;
            number(rt, cut.window)
        }
        Ok(None) => print!(rt; "\tnone\n"),
        Err(why) => {
            print!(rt; "\t")?;
            refusal(rt, why)
        }
    }
}
