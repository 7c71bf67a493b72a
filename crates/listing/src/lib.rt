// The texts that are written into a lent buffer: a plan's listing (document 01, "Sheet"), the listing that says why (document 02, E1), and two plans side by side (E3).
#![tactic(auto)]

mod diffs;
mod names;
mod rows;
mod stands;
mod texts;
mod whys;

ghost use Rattle.std.specs.Prelude.{cond, [], ◌∷◌, ◌≡◌, ◌+◌, ◌*◌, ◌≤◌, ◌<◌, ltb, length};
ghost use Rattle.demand.specs.Records.{pieces_in};
ghost use Rattle.demand.specs.Sizes.{length_most};
ghost use Rattle.task.specs.Tasks.{cores_most, task_at};
ghost use Rattle.lines.specs.Lines.{bytes_of};
ghost use Rattle.listing.specs.Text.{Wrote, ended_by, text_line, decimal, over};
ghost use Rattle.listing.specs.Listing.{spelling, kind_word, figures_line, entry_with, listing_of, plan_with, listed_on, entry_line};
ghost use Rattle.listing.specs.Papers.{note, note_of, left};
ghost use Rattle.listing.specs.Why.{why_run, why_of};
ghost use Rattle.listing.specs.Diff.{diff_of};

use demand::{Costs, Kind, Piece, RUN_MOST, Record, charged_time, outside};
use diffs::put_diff;
use names::lay_ranks;
use plan::{Layout, Plan, ROW_MOST, Stored, stored_piece};
use rows::{lay_seat, lay_seats, numbered, row_of};
use stands::lay_stands;
use task::{
    CORES_MOST, Fault, Name, Refused, TASKS_MOST, Task, Tasks, no_task, no_times, whole_piece,
};
use texts::{put_bytes, put_name, put_number, write_whole};
use whys::{NoRoom, write_why};

/// The most pieces that the rows of a plan can name.
pub const STANDS_MOST: usize = CORES_MOST * ROW_MOST;

/// The ranks that the names of two plans can have: none, and those of 64 tasks of each.
pub const RANKS_MOST: usize = 1 + 2 * TASKS_MOST;

/// A piece on a core, from 0, of a task whose name has that rank among the names of two plans.
#[derive(Clone, Copy, PartialEq, Eq)]
pub struct Ranked {
    pub core: usize,
    pub rank: usize,
    pub piece: Piece,
}

// A kind's word, ended by a tab.
fn put_kind(buf: &mut [u8], at: usize, kind: Kind) -> usize
    requires { at < 900000 }
    ensures { (Wrote buf.old at (ended_by 9 (kind_word kind)) result buf.new) × (result ≤ at + 6) }
{
    match kind {
        Kind::Whole => put_bytes(buf, at, b"whole", 9),
        Kind::First => put_bytes(buf, at, b"first", 9),
        Kind::Last => put_bytes(buf, at, b"last", 9),
    }
}

// The task at a place; an empty name and zeros past the list.
fn task_in(tasks: &Tasks, place: usize) -> Task
    ensures { (spelling result.name ≡ spelling (task_at tasks.now.list place).name) × (result.times ≡ (task_at tasks.now.list place).times) }
{
    tasks.list.get(place).copied().unwrap_or(no_task())
}

// A piece's figures, to the line's end: budget, window, jitter, charged time.
fn put_figures(buf: &mut [u8], at: usize, stored: Stored, charged: u64) -> usize
    requires { at ≤ 800000 }
    ensures { (Wrote buf.old at (figures_line stored.budget stored.window stored.jitter charged) result buf.new) × (result ≤ at + 84) }
{
    let a = put_number(buf, at, stored.budget, 9);
    let b = put_number(buf, a, stored.window, 9);
    let c = put_number(buf, b, stored.jitter, 9);
    put_number(buf, c, charged, 10)
}

// The line of one piece on a core, from 0, of a task of that name.
fn put_piece(
    buf: &mut [u8],
    at: usize,
    core: usize,
    name: Name,
    stored: Stored,
    costs: Costs,
) -> usize
    requires { (at ≤ 700000) × (core < cores_most) }
    ensures { (Wrote buf.old at (entry_line (entry_with costs core (spelling name) stored)) result buf.new) × (result ≤ at + 142) }
{
    let piece = stored_piece(stored);
    let kind = piece.kind;
    let charged = charged_time(costs, piece);
    let a = put_bytes(buf, at, b"piece", 9);
    let b = put_number(buf, a, (core + 1) as u64, 9);
    let c = put_name(buf, b, name, 9);
    let d = put_kind(buf, c, kind);
    put_figures(buf, d, stored, charged)
}

// The first line, with how many tasks and pieces there are.
fn put_header(buf: &mut [u8], tasks: usize, pieces: usize) -> usize
    ensures { (Wrote buf.old 0 (text_line (bytes_of "plan" ∷ decimal tasks ∷ decimal pieces ∷ [])) result buf.new) × (result ≤ 47) }
{
    let a = put_bytes(buf, 0, b"plan", 9);
    let b = put_number(buf, a, tasks as u64, 9);
    put_number(buf, b, pieces as u64, 10)
}

// All lines, the first and then each place of each core after another; the place behind them.
fn put_plan(buf: &mut [u8], costs: Costs, tasks: Tasks, layout: Layout) -> usize
    ensures { (Wrote buf.old 0 (listing_of (plan_with costs tasks layout)) result buf.new) × (result ≤ 47 + 142 * listed_on layout.lens cores_most) }
{
    let mut k = put_header(buf, tasks.count, layout.count);
    for core in 0..CORES_MOST {
        for number in row_of(&layout, core) {
            let stored = numbered(*number, &layout);
            k = put_piece(
                buf,
                k,
                core,
                task_in(&tasks, stored.task).name,
                stored,
                costs,
            );
        }
    }
    k
}

// As many bytes as the listing of rows of these lengths may have.
fn most_bytes(lens: [usize; CORES_MOST]) -> usize
    ensures { result ≡ 47 + 142 * listed_on lens cores_most }
{
    let mut most: usize = 47;
    for n in &lens {
        most += 142 * (*n).min(ROW_MOST);
    }
    most
}

/// The listing's length, at most 160,047. It is written where the buffer is that long, and the bytes beyond it stay; else no byte is written.
pub fn write_listing(plan: Plan, buf: &mut [u8]) -> usize
    ensures exact { (result ≡ length (listing_of plan)) × (buf.new ≡ over (listing_of plan) buf.old) × (result ≤ 160047) }
{
    write_whole(buf, most_bytes(plan.layout.lens), |lent: &mut [u8]| {
        put_plan(lent, plan.costs, plan.tasks, plan.layout)
    })
}

/// What is said of a run of records that is lent, each called by its place from 1: the length of the listing that says why its verdict is as it is, which is written; or
/// its refusal: 6, then 2, then 3 with the record's place, then 10 with the length needed, and then no byte is written.
pub fn why_run<'a>(costs: Costs, records: &'a [Record], buf: &'a mut [u8]) -> Result<u64, Refused>
    ensures exact { (note result ≡ note_of (why_run costs (length records.now) (pieces_in records.now)) (length buf.old)) × (buf.new ≡ left (why_run costs (length records.now) (pieces_in records.now)) buf.old) × ((note result).number ≤ 10) × ((note result).carries ≤ length_most) }
{
    let places: [usize; RUN_MOST] = [0; RUN_MOST];
    let tasks = Tasks {
        count: 0,
        list: [no_task(); TASKS_MOST],
    };
    write_why(buf, None, costs, false, tasks, &places, records)
}

/// The same of a core, from 1, of a plan, its pieces called by the names of their tasks: first 1 where the machine has no such core, then as a run of these pieces is refused. Where `stuck` is not 0, the
/// task at that place, from 1, found no room: then it is the last core, whichever was asked for, with the whole task added, and a line in front tells of it.
// `stuck` is no `Option` of a place from 0: of the last such place the number that is written in front would wrap.
pub fn why_plan(plan: Plan, stuck: usize, core: usize, buf: &mut [u8]) -> Result<u64, Refused>
    ensures exact { (note result ≡ note_of (why_of plan stuck core) (length buf.old)) × (buf.new ≡ left (why_of plan stuck core) buf.old) × ((note result).number ≤ 10) × ((note result).carries ≤ length_most) }
{
    let machine = plan.machine;
    let cores = machine.cores;
    if core == 0 || cores < core {
        return Err(Refused {
            fault: Fault::Machine,
            carries: 0,
        });
    }
    let costs = plan.costs;
    let tasks = plan.tasks;
    let layout = plan.layout;
    let mut records = [Record::from(outside()); RUN_MOST];
    let mut places = [0usize; RUN_MOST];
    if stuck == 0 {
        let n = lay_seats(&mut records, &mut places, layout, core - 1);
        return write_why(buf, None, costs, true, tasks, &places, &records[..n]);
    }
    let n = lay_seats(&mut records, &mut places, layout, cores - 1);
    let k = stuck - 1;
    let task = task_in(&tasks, k);
    lay_seat(&mut records, &mut places, n, k, whole_piece(task.times));
    let none = Some(NoRoom {
        place: stuck as u64,
        name: task.name,
        cores: cores as u64,
    });
    write_why(buf, none, costs, true, tasks, &places, &records[..n + 1])
}

/// The length of the listing that shows two plans side by side, at most 376,879: by name in byte order, what is in one of them alone or not alike in both. It is written where the buffer is that long, and
/// the bytes beyond it stay; else no byte is written.
// never inlined, so that the room for the pieces of two plans is not in one frame with planning them: a call then takes half the stack
#[inline(never)]
pub fn write_diff(first: Plan, second: Plan, buf: &mut [u8]) -> usize
    ensures exact { (result ≡ length (diff_of first second)) × (buf.new ≡ over (diff_of first second) buf.old) × (result ≤ 376879) }
{
    let tasks = first.tasks;
    let more = second.tasks;
    let mut ranks: [usize; TASKS_MOST] = [0; TASKS_MOST];
    let mut others: [usize; TASKS_MOST] = [0; TASKS_MOST];
    lay_ranks(&mut ranks, tasks, tasks, more);
    lay_ranks(&mut others, more, tasks, more);
    let none = Ranked {
        core: 0,
        rank: 0,
        piece: whole_piece(no_times()),
    };
    let mut stands: [Ranked; STANDS_MOST] = [none; STANDS_MOST];
    let mut rest: [Ranked; STANDS_MOST] = [none; STANDS_MOST];
    let n = lay_stands(&mut stands, &ranks, first.layout);
    let m = lay_stands(&mut rest, &others, second.layout);
    let stands = &stands[..n];
    let rest = &rest[..m];
    write_whole(buf, 47 + 184 * n + 184 * m, |lent: &mut [u8]| {
        put_diff(lent, &ranks, tasks, stands, &others, more, rest)
    })
}
