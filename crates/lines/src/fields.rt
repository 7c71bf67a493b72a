// Numbers and names in the bytes of a line.
ghost use Rattle.std.specs.Prelude.{◌≡◌};
ghost use Rattle.lines.specs.Lines.{fields, unled, name_in};
ghost use Rattle.lines.specs.Forms.{number_in, numbers_in};

use crate::until;
use task::{NAME_MOST, Name, well_formed};

// The most digits of a number.
const DIGITS_MOST: usize = 7;

// The name that a field is, if it has the form of one.
#[tactic(auto, using(crate::proofs::FieldLaws::name_cases))]
pub fn name_of(f: &[u8]) -> Option<Name>
    ensures { result ≡ name_in f.now }
{
    if NAME_MOST < f.len() {
        return None;
    }
    let mut bytes = [0u8; NAME_MOST];
    bytes[..f.len()].copy_from_slice(f);
    let name = Name {
        len: f.len(),
        bytes,
    };
    if !well_formed(name) {
        return None;
    }
    Some(name)
}

// Whether no zero leads, but for 0 itself.
pub fn unled(f: &[u8]) -> bool
    ensures { result ≡ unled f.now }
{
    if f.len() < 2 {
        return true;
    }
    f[0] != b'0'
}

// The number that a field is.
#[tactic(auto, using(crate::proofs::FieldLaws::number_cases))]
pub fn number_of(f: &[u8]) -> Option<u64>
    ensures { result ≡ number_in f.now }
{
    if f.is_empty() {
        return None;
    }
    if DIGITS_MOST < f.len() {
        return None;
    }
    if !unled(f) {
        return None;
    }
    let mut value: u64 = 0;
    for b in f {
        if !b.is_ascii_digit() {
            return None;
        }
        value = value * 10 + u64::from(*b - b'0');
    }
    Some(value)
}

// The N numbers that the fields of s are.
pub fn numbers_of<const N: usize>(s: &[u8]) -> Option<[u64; N]>
    ensures { result ≡ numbers_in N (fields s.now) }
{
    let mut values = [0u64; N];
    let mut rest = Some(s);
    for value in &mut values {
        let (field, beyond) = until(rest?, b'\t');
        *value = number_of(field)?;
        rest = beyond;
    }
    match rest {
        Some(_) => None,
        None => Some(values),
    }
}
