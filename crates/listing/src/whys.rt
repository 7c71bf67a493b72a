// The listing that says why, written into a lent buffer: document 02, E1.
ghost use Rattle.std.specs.Prelude.{Bool, cond, [], ◌∷◌, ◌++◌, ◌≡◌, ◌+◌, ◌*◌, ◌≤◌, ◌<◌, length, take};
ghost use Rattle.demand.specs.Answer.{Taken};
ghost use Rattle.demand.specs.Records.{pieces_in};
ghost use Rattle.demand.specs.Sizes.{run_most, length_most};
ghost use Rattle.demand.specs.Why.{shown_of};
ghost use Rattle.listing.specs.Text.{Wrote, ended_by, decimal};
ghost use Rattle.listing.specs.Listing.{spelling};
ghost use Rattle.listing.specs.Papers.{note, note_of, left};
ghost use Rattle.listing.specs.Why.{verdict_word, signed, why_head, ask_line, why_foot, why_text, why_paper};
ghost use Rattle.listing.specs.Ways.SeatArrays.{titled_in, front_of};

use crate::texts::{put_byte, put_bytes, put_name, put_number, write_whole};
use crate::{put_kind, task_in};
use demand::{Ask, Costs, Kind, RUN_MOST, Record, Shown, Verdict, charged_piece, piece_in};
use task::{Fault, Name, Refused, Tasks};
use verdicts::{ask_of, show_records};

// A task that found no room: its place from 1, its name, and how many cores there are.
#[derive(Clone, Copy)]
pub struct NoRoom {
    pub place: u64,
    pub name: Name,
    pub cores: u64,
}

// A verdict's word, ended by a tab.
pub fn put_verdict(buf: &mut [u8], at: usize, verdict: Verdict) -> usize
    requires { at < 900000 }
    ensures { (Wrote buf.old at (ended_by 9 (verdict_word verdict)) result buf.new) × (result ≤ at + 11) }
{
    match verdict {
        Verdict::Passes => put_bytes(buf, at, b"passes", 9),
        Verdict::Overloaded(_) => put_bytes(buf, at, b"overloaded", 9),
        Verdict::Undecided => put_bytes(buf, at, b"undecided", 9),
    }
}

// a - b, with a minus sign where it is negative, ended by a newline.
pub fn put_signed(buf: &mut [u8], at: usize, a: u64, b: u64) -> usize
    requires { at < 800000 }
    ensures { (Wrote buf.old at (ended_by 10 (signed a b)) result buf.new) × (result ≤ at + 22) }
{
    if b <= a {
        return put_number(buf, at, a - b, 10);
    }
    let k = put_byte(buf, at, 45);
    put_number(buf, k, b - a, 10)
}

pub fn put_head(buf: &mut [u8], at: usize, shown: Shown) -> usize
    requires { at < 800000 }
    ensures { (Wrote buf.old at (why_head shown) result buf.new) × (result ≤ at + 57) }
{
    let verdict = shown.verdict;
    let a = put_bytes(buf, at, b"why", 9);
    let b = put_verdict(buf, a, verdict);
    let c = put_number(buf, b, shown.length, 9);
    put_number(buf, c, shown.blocking, 10)
}

pub fn put_foot(buf: &mut [u8], at: usize, shown: Shown) -> usize
    requires { at < 700000 }
    ensures { (Wrote buf.old at (why_foot shown) result buf.new) × (result ≤ at + 55) }
{
    let a = put_bytes(buf, at, b"total", 9);
    let b = put_number(buf, a, shown.total, 10);
    let c = put_bytes(buf, b, b"slack", 9);
    put_signed(buf, c, shown.length, shown.total)
}

// What a piece is called by, ended by a tab: its task's name, or its place i, from 0, counted from 1.
pub fn put_title(buf: &mut [u8], at: usize, by_name: bool, name: Name, i: usize) -> usize
    requires { (at < 800000) × (i < run_most) }
    ensures { (Wrote buf.old at (ended_by 9 (cond by_name (spelling name) (decimal (i + 1)))) result buf.new) × (result ≤ at + 25) }
{
    if by_name {
        return put_name(buf, at, name, 9);
    }
    put_number(buf, at, (i + 1) as u64, 9)
}

// What it asks for, to the line's end.
pub fn put_ask(buf: &mut [u8], at: usize, asked: Ask) -> usize
    requires { at < 800000 }
    ensures { (Wrote buf.old at (ended_by 9 (decimal asked.jobs) ++ (ended_by 9 (decimal asked.demand) ++ ended_by 10 (decimal asked.interrupts))) result buf.new) × (result ≤ at + 63) }
{
    let a = put_number(buf, at, asked.jobs, 9);
    let b = put_number(buf, a, asked.demand, 9);
    put_number(buf, b, asked.interrupts, 10)
}

// The line of one piece.
pub fn put_asking(
    buf: &mut [u8],
    at: usize,
    by_name: bool,
    name: Name,
    i: usize,
    kind: Kind,
    asked: Ask,
) -> usize
    requires { (at < 700000) × (i < run_most) }
    ensures { (Wrote buf.old at (ask_line (cond by_name (spelling name) (decimal (i + 1))) kind asked) result buf.new) × (result ≤ at + 100) }
{
    let a = put_bytes(buf, at, b"piece", 9);
    let b = put_title(buf, a, by_name, name, i);
    let c = put_kind(buf, b, kind);
    put_ask(buf, c, asked)
}

// The line in front, if a task found no room.
pub fn put_no_room(buf: &mut [u8], stuck: Option<NoRoom>) -> usize
    ensures { (Wrote buf.old 0 (front_of stuck) result buf.new) × (result ≤ 74) }
{
    match stuck {
        None => 0,
        Some(stuck) => {
            let a = put_bytes(buf, 0, b"noroom", 9);
            let b = put_number(buf, a, stuck.place, 9);
            let c = put_name(buf, b, stuck.name, 9);
            put_number(buf, c, stuck.cores, 10)
        }
    }
}

// The whole listing of the records, with what is shown of them; the place behind it.
pub fn put_why<'a>(
    buf: &'a mut [u8],
    stuck: Option<NoRoom>,
    costs: Costs,
    by_name: bool,
    tasks: Tasks,
    places: &'a [usize; RUN_MOST],
    records: &'a [Record],
    shown: Shown,
) -> usize
    requires { Taken costs (length records.now) (pieces_in records.now) × (shown ≡ shown_of costs (pieces_in records.now)) }
    ensures { (Wrote buf.old 0 (front_of stuck ++ why_text costs (titled_in by_name tasks.list places.now records.now (length records.now))) result buf.new) × (result ≤ 186 + 100 * length records.now) }
{
    let front = put_no_room(buf, stuck);
    let head = put_head(buf, front, shown);
    if records.is_empty() {
        return head;
    }
    let verdict = shown.verdict;
    let mut k = head;
    for (i, record) in records.iter().enumerate() {
        let name = task_in(&tasks, places[i]).name;
        let piece = piece_in(*record);
        let kind = piece.kind;
        let asked = ask_of(charged_piece(costs, piece), verdict, shown.length);
        k = put_asking(buf, k, by_name, name, i, kind, asked);
    }
    put_foot(buf, k, shown)
}

// The listing of the records, written where the buffer is long enough, or why not.
pub fn write_why<'a>(
    buf: &'a mut [u8],
    stuck: Option<NoRoom>,
    costs: Costs,
    by_name: bool,
    tasks: Tasks,
    places: &'a [usize; RUN_MOST],
    records: &'a [Record],
) -> Result<u64, Refused>
    ensures value { (note result ≡ note_of (why_paper (front_of stuck) costs (length records.now) (titled_in by_name tasks.list places.now records.now (length records.now))) (length buf.old)) × (buf.new ≡ left (why_paper (front_of stuck) costs (length records.now) (titled_in by_name tasks.list places.now records.now (length records.now))) buf.old) }
    ensures number_bound { ((note result).number ≤ 10) × ((note result).carries ≤ length_most) }
{
    let shown = show_records(costs, records)?;
    let room = buf.len();
    let k = write_whole(buf, 186 + 100 * records.len(), |lent: &mut [u8]| {
        put_why(lent, stuck, costs, by_name, tasks, places, records, shown)
    });
    if room < k {
        return Err(Refused {
            fault: Fault::TooShort,
            carries: k as u64,
        });
    }
    Ok(k as u64)
}
