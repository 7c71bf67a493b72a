// The run examples of document 01, one line a case, through the proved code; `stdout` beside `src` is what must come out.
#![tactic(auto)]

mod lent;
mod plans;
mod print;
mod runs;
mod sheets;
mod states;

use demand::{Kind, Record};
use lent::LENT_MOST;
use plans::{many, pair, show_plan};
use print::{
    show_busy, show_demand, show_lent, show_records, show_split, show_split_beside, show_tight,
    show_verdict,
};
use runs::{costs, empty, free, ipis, piece, whole, with};
use sheets::whole_sheets;
use states::states_by_hand;
use std::io;

// K1 to K7, without costs but for the last.
fn verdicts(rt: &impl Print) -> io::Result<()> {
    show_verdict(rt, b"K1", free(), empty())?;
    show_verdict(rt, b"K2", free(), with(empty(), whole(1, 1, 1)))?;
    let twice_five = with(with(empty(), whole(5, 5, 10)), whole(5, 5, 10));
    show_verdict(rt, b"K3", free(), twice_five)?;
    let twice_six = with(with(empty(), whole(6, 10, 10)), whole(6, 10, 10));
    show_verdict(rt, b"K4", free(), twice_six)?;
    let two = with(with(empty(), whole(2, 10, 10)), whole(2, 10, 10));
    let four = with(with(two, whole(2, 10, 10)), whole(2, 10, 10));
    show_verdict(rt, b"K5", free(), with(four, whole(2, 2, 10)))?;
    show_verdict(rt, b"K6", free(), with(four, whole(3, 3, 10)))?;
    let windows = with(with(empty(), whole(8, 10, 50)), whole(1, 12, 50));
    show_verdict(rt, b"K7", costs(0, 0, 0, 4, 0, 0), windows)
}

// K8 to K11, with the figures that document 01 gives.
fn figures(rt: &impl Print) -> io::Result<()> {
    let one = with(empty(), whole(5, 100, 100));
    show_busy(rt, b"K8", costs(2, 3, 1, 4, 0, 0), one)?;
    show_demand(rt, b"K8", costs(2, 3, 1, 4, 0, 0), one, 100)?;
    show_verdict(rt, b"K8", costs(2, 3, 1, 4, 0, 0), one)?;
    show_tight(
        rt,
        b"K9",
        costs(2, 3, 1, 4, 2, 1),
        with(empty(), piece(Kind::First, 5, 100, 100, 0)),
    )?;
    show_tight(
        rt,
        b"K10",
        costs(2, 3, 1, 4, 2, 1),
        with(empty(), piece(Kind::First, 5, 100, 100, 5)),
    )?;
    show_verdict(
        rt,
        b"K11",
        free(),
        with(empty(), piece(Kind::Whole, 1, 5, 10, 5)),
    )
}

// The three cores of 001's table IV.
fn table_four(rt: &impl Print) -> io::Result<()> {
    let one = with(
        with(empty(), piece(Kind::First, 5, 5, 16, 0)),
        whole(14, 40, 40),
    );
    show_verdict(
        rt,
        b"table IV, core 1",
        free(),
        with(one, whole(16, 48, 48)),
    )?;
    let two = with(
        with(empty(), piece(Kind::First, 1, 1, 12, 0)),
        whole(9, 20, 20),
    );
    let more = with(with(two, whole(6, 15, 15)), piece(Kind::Last, 1, 11, 16, 0));
    show_verdict(rt, b"table IV, core 2", free(), more)?;
    let three = with(
        with(empty(), whole(5, 10, 10)),
        piece(Kind::Last, 5, 11, 12, 0),
    );
    show_verdict(rt, b"table IV, core 3", free(), three)
}

// What is refused, in its order: 6, 2, 3.
fn refusals(rt: &impl Print) -> io::Result<()> {
    let bad = with(with(empty(), whole(1, 1, 1)), whole(2, 1, 1));
    show_verdict(rt, b"second record", free(), bad)?;
    show_verdict(rt, b"bad constant", costs(0, 0, 0, 100001, 0, 0), bad)?;
    let mut many = bad;
    many.count = 80;
    show_verdict(rt, b"80 records", costs(0, 0, 0, 100001, 0, 0), many)
}

// Records that are lent, of which the second is of one kind after another.
fn lent_records(rt: &impl Print) -> io::Result<()> {
    let mut records = [Record::from(whole(1, 2, 4)); 2];
    show_records(rt, b"two whole pieces", free(), &records)?;
    records[1].kind = 2;
    show_records(rt, b"the second a last piece", free(), &records)?;
    records[1].kind = 3;
    show_records(rt, b"the second of another kind", free(), &records)?;
    let first = [records[0]];
    show_records(rt, b"the first alone", free(), &first)?;
    show_split_beside(
        rt,
        b"beside another kind",
        free(),
        &records,
        whole(3, 4, 4),
        1,
    )?;
    show_split_beside(
        rt,
        b"beside the first alone",
        free(),
        &first,
        whole(3, 4, 4),
        1,
    )
}

// Pieces that are lent: K1 to K4 and K7 once more, as many as a run may have, and what is refused: 3, 2, 6.
fn lent_pieces(rt: &impl Print) -> io::Result<()> {
    let mut records = [whole(1, 1, 1); LENT_MOST];
    show_lent(rt, b"K1, lent", free(), records, 0)?;
    show_lent(rt, b"K2, lent", free(), records, 1)?;
    records[0] = whole(5, 5, 10);
    records[1] = whole(5, 5, 10);
    show_lent(rt, b"K3, lent", free(), records, 2)?;
    records[0] = whole(6, 10, 10);
    records[1] = whole(6, 10, 10);
    show_lent(rt, b"K4, lent", free(), records, 2)?;
    records[0] = whole(8, 10, 50);
    records[1] = whole(1, 12, 50);
    show_lent(rt, b"K7, lent", costs(0, 0, 0, 4, 0, 0), records, 2)?;
    records[1] = whole(2, 1, 1);
    show_lent(rt, b"second record, lent", free(), records, 2)?;
    show_lent(
        rt,
        b"bad constant, lent",
        costs(0, 0, 0, 100001, 0, 0),
        records,
        2,
    )?;
    show_lent(
        rt,
        b"79 records, lent",
        free(),
        [whole(1, 79, 79); LENT_MOST],
        79,
    )?;
    show_lent(
        rt,
        b"80 records, lent",
        costs(0, 0, 0, 100001, 0, 0),
        records,
        80,
    )
}

// The split of document 01's sheet, and the hole: with costs a smaller x is refused where a larger one is allowed. At x = 1 the last piece alone
// does not pass, at x = 2 it does.
fn splits(rt: &impl Print) -> io::Result<()> {
    let press = with(empty(), whole(6, 10, 10));
    show_split(rt, b"feed beside press", free(), press, whole(6, 10, 10), 1)?;
    let last_of_one = with(empty(), piece(Kind::Last, 2, 3, 4, 0));
    show_verdict(rt, b"hole, last piece of 1", ipis(1, 2), last_of_one)?;
    show_split(rt, b"hole", ipis(1, 2), empty(), whole(3, 4, 4), 1)?;
    let beside = with(empty(), whole(4, 7, 7));
    show_split(
        rt,
        b"hole beside a task",
        ipis(3, 0),
        beside,
        whole(3, 6, 6),
        1,
    )?;
    show_split(rt, b"no grain", free(), press, whole(6, 10, 10), 0)?;
    show_split(rt, b"bad task", free(), press, whole(6, 5, 10), 1)
}

// Plans: 001's table II, document 01's sheet, no room, splits on fifteen of sixteen cores, sixty-four tasks on one core, and what is refused before.
fn whole_plans(rt: &impl Print) -> io::Result<()> {
    show_plan(rt, b"table II", 2, free(), many(3, 66, 100, 1), true)?;
    show_plan(
        rt,
        b"document 01's sheet",
        2,
        free(),
        many(3, 6, 10, 1),
        true,
    )?;
    show_plan(rt, b"the hole", 2, ipis(3, 0), pair(4, 7, 3, 6), true)?;
    show_plan(rt, b"no room", 1, free(), many(2, 6, 10, 0), true)?;
    show_plan(
        rt,
        b"sixteen cores",
        16,
        free(),
        many(31, 51, 100, 0),
        false,
    )?;
    show_plan(
        rt,
        b"sixty-four tasks",
        1,
        free(),
        many(64, 1, 64, 0),
        false,
    )?;
    show_plan(
        rt,
        b"sixty-five tasks",
        1,
        free(),
        many(65, 1, 64, 0),
        false,
    )?;
    show_plan(rt, b"no tasks", 3, free(), many(0, 1, 1, 0), false)?;
    show_plan(
        rt,
        b"no cores",
        0,
        costs(0, 0, 0, 100001, 0, 0),
        many(3, 6, 10, 1),
        false,
    )
}

fn main(rt: HostRuntime) -> io::Result<()> {
    verdicts(&rt)?;
    figures(&rt)?;
    table_four(&rt)?;
    refusals(&rt)?;
    lent_records(&rt)?;
    lent_pieces(&rt)?;
    splits(&rt)?;
    whole_plans(&rt)?;
    states_by_hand(&rt)?;
    whole_sheets(&rt)
}
