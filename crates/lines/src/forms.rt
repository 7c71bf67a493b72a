// What a line says by its form alone.
ghost use Rattle.std.specs.Prelude.{◌≡◌};
ghost use Rattle.lines.specs.Lines.{fields};
ghost use Rattle.lines.specs.Forms.{machine_form, cost_form, part_form, fit_form, word_of};

use crate::fields::{name_of, numbers_of};
use crate::{Line, until};
use demand::Costs;
use task::{Machine, Part, Times};

// The kind of a line, by its first field.
#[derive(Clone, Copy)]
pub enum Word {
    Machine,
    Cost,
    Part,
    Fit,
}

// The machine of a `machine` line whose fields stand in s.
#[tactic(auto, using(crate::proofs::FormLaws::machine_by))]
pub fn machine_form(s: &[u8]) -> Option<Machine>
    ensures { result ≡ machine_form (fields s.now) }
{
    let [cores, grain] = numbers_of::<2>(s)?;
    Some(Machine {
        cores: cores as usize,
        grain,
    })
}

// The costs of a `cost` line whose fields stand in s.
#[tactic(auto, using(crate::proofs::FormLaws::cost_by))]
pub fn cost_form(s: &[u8]) -> Option<Costs>
    ensures { result ≡ cost_form (fields s.now) }
{
    let [relo, schedo, tseto, ipb, beto, migro, ipio, ipij, precision] = numbers_of::<9>(s)?;
    Some(Costs {
        relo,
        schedo,
        tseto,
        ipb,
        beto,
        migro,
        ipio,
        ipij,
        precision,
    })
}

// The part of a `part` line whose fields stand in s.
#[tactic(auto, using(crate::proofs::FormLaws::part_cases))]
pub fn part_form(s: &[u8]) -> Option<Part>
    ensures { result ≡ part_form (fields s.now) }
{
    let (field, rest) = until(s, b'\t');
    let name = name_of(field)?;
    let [worst, deadline, period, jitter, preempt, migrate] = numbers_of::<6>(rest?)?;
    Some(Part {
        name,
        times: Times {
            worst,
            deadline,
            period,
            jitter,
            preempt,
            migrate,
        },
    })
}

// The `fit` line whose fields stand in s.
#[tactic(auto, using(crate::proofs::FormLaws::fit_cases))]
pub fn fit_form(s: &[u8]) -> Option<Line>
    ensures { result ≡ fit_form (fields s.now) }
{
    let (field, rest) = until(s, b'\t');
    let (other, more) = until(rest?, b'\t');
    if more.is_some() {
        return None;
    }
    let task = name_of(field)?;
    let part = name_of(other)?;
    Some(Line::Fit { task, part })
}

// The kind of line that a first field names.
#[tactic(auto, using(crate::proofs::LineLaws::word_cases), unfolding(crate::specs::Forms::word_of))]
pub fn word_of(f: &[u8]) -> Option<Word>
    ensures { result ≡ word_of f.now }
{
    match f {
        b"machine" => Some(Word::Machine),
        b"cost" => Some(Word::Cost),
        b"part" => Some(Word::Part),
        b"fit" => Some(Word::Fit),
        _ => None,
    }
}
