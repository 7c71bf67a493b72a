// An answer as one number: 2^32 · which + carries.
ghost use Rattle.std.specs.Prelude.{cond, ◌≡◌, ◌+◌, ◌*◌, ◌^◌, ◌≤◌, ◌<◌, eqb};
ghost use Rattle.task.specs.Faults.{number_of as fault_number};
ghost use Rattle.listing.specs.Papers.{note};
ghost use Rattle.spardimple.specs.Numbers.{number};
ghost use Rattle.spardimple.specs.Ways.Steps.{told_said};

use demand::Verdict;
use task::Refused;

fn numbered(which: u64, carries: u64) -> u64
    requires { (which ≤ 2000) × (carries < 2 ^ 32) }
    ensures { result ≡ 2 ^ 32 * which + carries }
{
    4294967296 * which + carries
}

// A refusal, with as much added to its number.
pub fn refusal_number(added: u64, why: Refused) -> u64
    requires { (added ≤ 1000) × (why.carries < 2 ^ 32) }
    ensures { result ≡ 2 ^ 32 * (100 + (added + fault_number why.fault)) + why.carries }
{
    numbered(100 + added + u64::from(why.fault), why.carries)
}

// Which verdict, and what it carries; or the refusal.
pub fn number_of(answer: Result<Verdict, Refused>) -> u64
    requires { (told_said answer).carries < 2 ^ 32 }
    ensures { result ≡ number (told_said answer) }
{
    match answer {
        Ok(verdict) => match verdict {
            Verdict::Passes => numbered(0, 0),
            Verdict::Overloaded(t) => numbered(1, t),
            Verdict::Undecided => numbered(2, 0),
        },
        Err(why) => refusal_number(0, why),
    }
}

// What is said of a text: its length, or the refusal.
pub fn note_number(said: Result<u64, Refused>) -> u64
    requires { (note said).carries < 2 ^ 32 }
    ensures { result ≡ 2 ^ 32 * cond (eqb (note said).number 0) 0 (100 + (note said).number) + (note said).carries }
{
    match said {
        Ok(length) => numbered(0, length),
        Err(why) => refusal_number(0, why),
    }
}
