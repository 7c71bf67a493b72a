// What is wrong with what was given, by name. A number is asked for only where one leaves: in an answer that carries it, and at the C interface.
ghost use Rattle.std.specs.Prelude.{◌≡◌};
ghost use Rattle.task.specs.Faults.{number_of, refused_as};

use demand::Refusal;

/// What is wrong with a sheet, a state or an edit: document 01, "Refusal numbers".
#[derive(Clone, Copy, PartialEq, Eq)]
pub enum Fault {
    /// 1: a bad machine.
    Machine,
    /// 2: bad costs.
    Costs,
    /// 3: times outside the sizes.
    Times,
    /// 4: a name that is taken.
    Twin,
    /// 5: a name that is not there.
    Unknown,
    /// 6: more than 64.
    TooMany,
    /// 7: no room on the machine.
    NoRoom,
    /// 8: a bad form.
    Form,
    /// 9: a sheet that is too long.
    TooLong,
    /// 10: a buffer that is too short.
    TooShort,
}

impl From<Fault> for u64 {
    ghost from_gives = { λ fault n. n ≡ number_of fault };

    fn from(fault: Fault) -> u64 {
        match fault {
            Fault::Machine => 1,
            Fault::Costs => 2,
            Fault::Times => 3,
            Fault::Twin => 4,
            Fault::Unknown => 5,
            Fault::TooMany => 6,
            Fault::NoRoom => 7,
            Fault::Form => 8,
            Fault::TooLong => 9,
            Fault::TooShort => 10,
        }
    }
}

/// A refusal, and what it carries: a place, a line or a length; 0 where it carries nothing.
#[derive(Clone, Copy, PartialEq, Eq)]
pub struct Refused {
    pub fault: Fault,
    pub carries: u64,
}

/// A refusal that carries nothing.
impl From<Fault> for Refused {
    ghost from_gives = { λ fault refused. refused ≡ record { fault = fault; carries = 0 } };

    fn from(fault: Fault) -> Refused {
        Refused { fault, carries: 0 }
    }
}

impl From<Refusal> for Refused {
    ghost from_gives = { λ why refused. refused ≡ refused_as why };

    fn from(why: Refusal) -> Refused {
        match why {
            Refusal::TooMany => Refused {
                fault: Fault::TooMany,
                carries: 0,
            },
            Refusal::BadCosts => Refused {
                fault: Fault::Costs,
                carries: 0,
            },
            Refusal::BadRecord(place) => Refused {
                fault: Fault::Times,
                carries: place,
            },
        }
    }
}
