// A script's line, taken byte by byte.
ghost use Rattle.std.specs.Prelude.{◌≡◌};
ghost use Rattle.desk.specs.Desk.{fresh, with_byte, order_in};

use lines::{Order, order_of};

/// The most bytes of a line that are looked at.
const LINE_MOST: usize = 200;

/// One byte more tells that a line is longer.
const LINE_ROOM: usize = 201;

/// The bytes of a script's line so far. A line of more than 200 bytes is held as 201 of them: it is too long for any form.
#[derive(Clone, Copy)]
pub struct Pending {
    pub len: usize,
    pub bytes: [u8; LINE_ROOM],
}

impl Pending {
    // A line of which nothing has come.
    pub fn fresh() -> Pending
        ensures { result ≡ fresh }
    {
        Pending {
            len: 0,
            bytes: [0u8; LINE_ROOM],
        }
    }

    // One byte more.
    #[tactic(auto, unfolding(crate::specs::Desk::with_byte))]
    pub fn push(&mut self, b: u8)
        ensures { self.new ≡ with_byte self.old b }
    {
        if self.len < LINE_ROOM {
            self.bytes[self.len] = b;
            self.len += 1;
        }
    }

    // What the line says.
    #[tactic(auto, unfolding(crate::specs::Desk::order_in))]
    pub fn order(&self) -> Option<Order>
        ensures { result ≡ order_in self.now }
    {
        if LINE_MOST < self.len {
            return None;
        }
        order_of(&self.bytes[..self.len])
    }
}
