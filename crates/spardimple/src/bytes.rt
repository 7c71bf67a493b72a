// Records and costs out of lent bytes: four bytes a number, lowest first.
ghost use Rattle.std.specs.Prelude.{◌≡◌, ◌+◌, ◌*◌, ◌≤◌, ◌<◌, length, MatchResult};
ghost use Rattle.demand.specs.Records.{record_spelt, pieces_in};
ghost use Rattle.demand.specs.declared.Refusal.TheVariants.{TooMany};
ghost use Rattle.demand.specs.Sizes.{run_most};
ghost use Rattle.spardimple.specs.Bytes.{number_at, numbers_spelt, pieces_of, costs_spelt};

use demand::{Costs, RUN_MOST, Record, Refusal};

// The number at a place from 0, of four bytes each.
pub fn number_at(s: &[u8], k: usize) -> u64
    requires { 4 * k + 4 ≤ length s.now }
    ensures { result ≡ number_at s.now k }
{
    let at = 4 * k;
    u64::from(u32::from_le_bytes([s[at], s[at + 1], s[at + 2], s[at + 3]]))
}

// The record at a place from 0, of seven numbers each.
pub fn record_in(s: &[u8], i: usize) -> Record
    requires { 28 * i + 28 ≤ length s.now }
    ensures { result ≡ record_spelt (numbers_spelt s.now) i }
{
    let at = 7 * i;
    Record {
        kind: number_at(s, at),
        budget: number_at(s, at + 1),
        window: number_at(s, at + 2),
        period: number_at(s, at + 3),
        jitter: number_at(s, at + 4),
        preempt: number_at(s, at + 5),
        migrate: number_at(s, at + 6),
    }
}

// The nine costs that the bytes spell, in the sheet's order.
pub fn read_costs(s: &[u8]) -> Costs
    requires { length s.now ≡ 36 }
    ensures { result ≡ costs_spelt s.now }
{
    Costs {
        relo: number_at(s, 0),
        schedo: number_at(s, 1),
        tseto: number_at(s, 2),
        ipb: number_at(s, 3),
        beto: number_at(s, 4),
        migro: number_at(s, 5),
        ipio: number_at(s, 6),
        ipij: number_at(s, 7),
        precision: number_at(s, 8),
    }
}

// The records that the bytes spell, read into the room for them. More than a run has are refused before any is read.
pub fn records_in<'a>(room: &'a mut [Record; RUN_MOST], s: &[u8]) -> Result<&'a [Record], Refusal>
    ensures { MatchResult result (λ rs. pieces_in rs.now ≡ pieces_of s.now) (λ why. (why ≡ TooMany) × (run_most < length (pieces_of s.now))) }
{
    let count = s.len() / 28;
    if RUN_MOST < count {
        return Err(Refusal::TooMany);
    }
    for i in 0..count {
        room[i] = record_in(s, i);
    }
    Ok(&room[..count])
}
