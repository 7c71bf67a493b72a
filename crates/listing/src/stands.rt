// What a plan places, called by the ranks of its names: laid out once, then compared with another plan's.
ghost use Rattle.std.specs.Prelude.{map, ◌≡◌, ◌≤◌, eqb, length, take, get_or};
ghost use Rattle.task.specs.Tasks.{tasks_most, cores_most};
ghost use Rattle.lines.specs.Lines.{every};
ghost use Rattle.listing.specs.Diff.{how_often, of_item, as_often, alike, seats_on};
ghost use Rattle.listing.specs.Ways.RankArrays.{stands_most, ranked_by, seat, placed};

use crate::rows::{numbered, row_of};
use crate::{Ranked, STANDS_MOST};
use plan::{Layout, stored_piece};
use task::{CORES_MOST, TASKS_MOST};

// The rank at a place; 0 past the list, where there is no name.
fn rank_in(ranks: &[usize; TASKS_MOST], place: usize) -> usize
    ensures { result ≡ get_or ranks.now place 0 }
{
    ranks.get(place).copied().unwrap_or(0)
}

// All that a plan places, by core, then placement; how many pieces it is.
pub fn lay_stands<'a>(
    stands: &'a mut [Ranked; STANDS_MOST],
    ranks: &'a [usize; TASKS_MOST],
    layout: Layout,
) -> usize
    ensures { (placed (take result stands.new) ≡ map (ranked_by ranks.now) (seats_on layout cores_most)) × (result ≤ stands_most) }
{
    let mut n: usize = 0;
    for core in 0..CORES_MOST {
        for number in row_of(&layout, core) {
            let stored = numbered(*number, &layout);
            stands[n] = Ranked {
                core,
                rank: rank_in(ranks, stored.task),
                piece: stored_piece(stored),
            };
            n += 1;
        }
    }
    n
}

// How often a piece is among these, on its core and under its rank.
pub fn often(stands: &[Ranked], e: Ranked) -> usize
    ensures { result ≡ how_often eqb (seat e) (placed stands.now) }
{
    stands.iter().filter(|f| **f == e).count()
}

// How many of these have a rank.
pub fn of_rank(stands: &[Ranked], rank: usize) -> usize
    ensures { result ≡ length (of_item eqb rank (placed stands.now)) }
{
    stands.iter().filter(|e| e.rank == rank).count()
}

// Whether each piece of a rank is as often among `others` as among `stands`.
pub fn as_often(rank: usize, stands: &[Ranked], others: &[Ranked]) -> bool
    ensures { result ≡ every (as_often eqb (placed stands.now) (placed others.now)) (of_item eqb rank (placed stands.now)) }
{
    stands.iter().all(|e| e.rank != rank || often(stands, *e) == often(others, *e))
}

// Whether two plans place the pieces of a rank alike.
pub fn alike(rank: usize, stands: &[Ranked], others: &[Ranked]) -> bool
    ensures { result ≡ alike eqb rank (placed stands.now) (placed others.now) }
{
    as_often(rank, stands, others) && as_often(rank, others, stands)
}
