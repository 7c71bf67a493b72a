// Two plans side by side, written into a lent buffer: document 02, E3.
ghost use Rattle.std.specs.Prelude.{[], ◌∷◌, ◌++◌, ◌≡◌, ◌+◌, ◌*◌, ◌≤◌, ◌<◌, eqb, length};
ghost use Rattle.demand.specs.Sizes.{Each};
ghost use Rattle.task.specs.Tasks.{tasks_most, cores_most};
ghost use Rattle.listing.specs.Text.{Wrote, text_line, decimal};
ghost use Rattle.listing.specs.Listing.{spelling};
ghost use Rattle.listing.specs.Diff.{of_item, diff_line, diff_lines, diff_head};
ghost use Rattle.listing.specs.Ways.RankArrays.{stands_most, ranks_most, ranked_name, under, rank_block, rank_blocks, ranked_below, figures_of, placed};

use crate::names::name_with;
use crate::stands::{alike, of_rank};
use crate::texts::{put_bytes, put_name, put_number};
use crate::{RANKS_MOST, Ranked, put_kind};
use demand::Piece;
use task::{Name, TASKS_MOST, Tasks};

// The figures of a piece, to the line's end: budget, window, period, jitter, P, M.
fn put_all_figures(buf: &mut [u8], at: usize, piece: Piece) -> usize
    requires { at ≤ 850000 }
    ensures { (Wrote buf.old at (text_line (figures_of piece)) result buf.new) × (result ≤ at + 126) }
{
    let a = put_number(buf, at, piece.budget, 9);
    let b = put_number(buf, a, piece.window, 9);
    let c = put_number(buf, b, piece.period, 9);
    let d = put_number(buf, c, piece.jitter, 9);
    let f = put_number(buf, d, piece.preempt, 9);
    put_number(buf, f, piece.migrate, 10)
}

// The line of a piece, under a word and a name.
fn put_stand<'a>(buf: &'a mut [u8], at: usize, word: &'a [u8], name: Name, e: Ranked) -> usize
    requires { (at ≤ 800000) × (length word.now ≤ 5) × (e.core < cores_most) }
    ensures { (Wrote buf.old at (diff_line word.now (record { on = e.core; item = spelling name; piece = e.piece })) result buf.new) × (result ≤ at + 184) }
{
    let piece = e.piece;
    let kind = piece.kind;
    let core = e.core + 1;
    let a = put_bytes(buf, at, word, 9);
    let b = put_name(buf, a, name, 9);
    let c = put_number(buf, b, core as u64, 9);
    let d = put_kind(buf, c, kind);
    put_all_figures(buf, d, piece)
}

// The lines of the pieces of a rank, under a word and a name.
fn put_stands<'a>(
    buf: &'a mut [u8],
    at: usize,
    word: &'a [u8],
    name: Name,
    rank: usize,
    stands: &'a [Ranked],
) -> usize
    requires { (at + 184 * length stands.now ≤ 800000) × (length word.now ≤ 5) × Each (λ e. e.on < cores_most) (placed stands.now) }
    ensures { (Wrote buf.old at (diff_lines word.now (under (spelling name) (of_item eqb rank (placed stands.now)))) result buf.new) × (result ≤ at + 184 * length (of_item eqb rank (placed stands.now))) }
{
    let mut k = at;
    for e in stands {
        if e.rank == rank {
            k = put_stand(buf, k, word, name, *e);
        }
    }
    k
}

// The lines of a name that two plans do not place alike: in one of them alone, or as it was and as it is now.
fn put_moved<'a>(
    buf: &'a mut [u8],
    at: usize,
    name: Name,
    rank: usize,
    stands: &'a [Ranked],
    others: &'a [Ranked],
) -> usize
    requires { (at + 184 * length stands.now + 184 * length others.now ≤ 800000) × Each (λ e. e.on < cores_most) (placed stands.now) × Each (λ e. e.on < cores_most) (placed others.now) }
    ensures { (Wrote buf.old at (rank_block (spelling name) rank (placed stands.now) (placed others.now)) result buf.new) × (result ≤ at + 184 * length (of_item eqb rank (placed stands.now)) + 184 * length (of_item eqb rank (placed others.now))) }
{
    if of_rank(stands, rank) == 0 {
        return put_stands(buf, at, b"only2", name, rank, others);
    }
    if of_rank(others, rank) == 0 {
        return put_stands(buf, at, b"only1", name, rank, stands);
    }
    let k = put_stands(buf, at, b"was", name, rank, stands);
    put_stands(buf, k, b"now", name, rank, others)
}

// The first line, with how many tasks each plan has.
fn put_diff_head(buf: &mut [u8], tasks: usize, more: usize) -> usize
    ensures { (Wrote buf.old 0 (diff_head tasks more) result buf.new) × (result ≤ 47) }
{
    let a = put_bytes(buf, 0, b"diff", 9);
    let b = put_number(buf, a, tasks as u64, 9);
    put_number(buf, b, more as u64, 10)
}

// All lines, the first and then those of each rank after another; the place behind them.
pub fn put_diff<'a>(
    buf: &'a mut [u8],
    ranks: &'a [usize; TASKS_MOST],
    tasks: Tasks,
    stands: &'a [Ranked],
    others: &'a [usize; TASKS_MOST],
    more: Tasks,
    rest: &'a [Ranked],
) -> usize
    requires { (length stands.now ≤ stands_most) × (length rest.now ≤ stands_most) × Each (λ e. e.on < cores_most) (placed stands.now) × Each (λ e. e.on < cores_most) (placed rest.now) }
    ensures { (Wrote buf.old 0 (diff_head tasks.count more.count ++ rank_blocks (λ k. ranked_name k ranks.now tasks.list others.now more.list) (placed stands.now) (placed rest.now) ranks_most) result buf.new) × (result ≤ 47 + 184 * length stands.now + 184 * length rest.now) }
{
    let mut k = put_diff_head(buf, tasks.count, more.count);
    for rank in 0..RANKS_MOST {
        if !alike(rank, stands, rest) {
            let name = name_with(rank, ranks, tasks, others, more);
            k = put_moved(buf, k, name, rank, stands, rest);
        }
    }
    k
}
