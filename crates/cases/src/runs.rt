// Short ways to write costs, pieces and runs.
use demand::{Costs, Kind, Piece, RUN_MOST, Run};

pub fn piece(kind: Kind, budget: u64, window: u64, period: u64, jitter: u64) -> Piece {
    Piece {
        kind,
        budget,
        window,
        period,
        jitter,
        preempt: 0,
        migrate: 0,
    }
}

pub fn whole(budget: u64, window: u64, period: u64) -> Piece {
    piece(Kind::Whole, budget, window, period, 0)
}

// RelO, SchedO, TsetO, IpB, BetO, MigrO; the rest are 0.
pub fn costs(relo: u64, schedo: u64, tseto: u64, ipb: u64, beto: u64, migro: u64) -> Costs {
    Costs {
        relo,
        schedo,
        tseto,
        ipb,
        beto,
        migro,
        ipio: 0,
        ipij: 0,
        precision: 0,
    }
}

pub fn free() -> Costs {
    costs(0, 0, 0, 0, 0, 0)
}

// IpiO and IpiJ alone.
pub fn ipis(ipio: u64, ipij: u64) -> Costs {
    let mut only = free();
    only.ipio = ipio;
    only.ipij = ipij;
    only
}

pub fn empty() -> Run {
    Run {
        count: 0,
        pieces: [whole(0, 0, 0); RUN_MOST],
    }
}

// The run with one piece more; a full run stays as it is.
pub fn with(run: Run, piece: Piece) -> Run {
    let at = run.count;
    if RUN_MOST <= at {
        return run;
    }
    let mut next = run;
    next.pieces[at] = piece;
    next.count = at + 1;
    next
}
