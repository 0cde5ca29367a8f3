//! Numbers by which a requester reserves a list of records.
ghost use Rattle.std.specs.Prelude.{◌≡◌, ◌<◌};
ghost use Rattle.sel_log.specs.Reservations.{no_reservation, next_number, is_present};

/// The present reservation, if there is one, and the last one that was given.
#[derive(Clone, Copy)]
pub struct Reservations {
    // 0000h where there is none
    present: u16,
    // 0000h where none was given yet
    last: u16,
}

impl Reservations {
    /// None was given yet.
    pub fn new() -> Self
        ensures { result ≡ no_reservation }
    {
        Reservations {
            present: 0,
            last: 0,
        }
    }

    /// Gives the next number, which is the present reservation from now on.
    pub fn reserve(&mut self) -> u16
        ensures number { result ≡ next_number self.old.last }
        ensures nonzero { 0 < result }
        ensures present { self.new ≡ record { present = result; last = result } }
    {
        let number = if self.last == u16::MAX {
            1
        } else {
            self.last + 1
        };
        *self = Reservations {
            present: number,
            last: number,
        };
        number
    }

    /// Whether the number is the present reservation. 0000h never is.
    pub fn is_present(self, number: u16) -> bool
        ensures { result ≡ is_present self number }
    {
        number != 0 && number == self.present
    }

    /// Ends the present reservation. The numbers go on.
    pub fn end(&mut self)
        ensures { self.new ≡ record self.old { present = 0 } }
    {
        self.present = 0;
    }
}
