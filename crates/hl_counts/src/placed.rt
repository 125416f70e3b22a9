ghost use Rattle.std.specs.Prelude.{◌≡◌, ℕ, ◌+◌, ◌-◌, ◌%◌, ◌^◌, ◌<◌, ◌≤◌};

/// An epoch with its place in a ring: the epoch modulo the ring's length. It is kept, so that a step to
/// another epoch's place is a sum or a difference, and no division.
#[derive(Clone, Copy)]
pub struct Placed {
    pub epoch: u64,
    pub place: usize,
}

impl Placed {
    /// An epoch in a ring of so many places. This divides: it is for the opening of a table alone.
    pub fn of(epoch: u64, places: usize) -> Placed
        requires { 0 < places }
        ensures epoch { result.epoch ≡ epoch }
        ensures place { result.place ≡ epoch % places }
    {
        Placed {
            epoch,
            place: (epoch % places as u64) as usize,
        }
    }

    /// The epoch that comes next.
    pub fn next(self, places: usize) -> Placed
        requires placed { self.place ≡ self.epoch % places }
        requires some { 0 < places }
        requires room { (self.epoch < 2 ^ 63) × (places < 2 ^ 32) }
        ensures epoch { result.epoch ≡ self.epoch + 1 }
        ensures place { result.place ≡ (self.epoch + 1) % places }
    {
        let place = self.place + 1;
        Placed {
            epoch: self.epoch + 1,
            place: if place == places { 0 } else { place },
        }
    }

    /// An epoch before this one, by less than the ring is long.
    pub fn back_to(self, epoch: u64, places: usize) -> Placed
        requires placed { self.place ≡ self.epoch % places }
        requires before { epoch ≤ self.epoch }
        requires near { self.epoch < epoch + places }
        requires room { places < 2 ^ 32 }
        ensures epoch { result.epoch ≡ epoch }
        ensures place { result.place ≡ epoch % places }
    {
        let back = (self.epoch - epoch) as usize;
        let place = if back <= self.place {
            self.place - back
        } else {
            self.place + places - back
        };
        Placed { epoch, place }
    }
}
