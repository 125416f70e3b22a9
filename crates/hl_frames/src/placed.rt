ghost use Rattle.std.specs.Prelude.{◌≡◌, ℕ, ◌+◌, ◌%◌, ◌^◌, ◌<◌, ◌≤◌, min};

/// A page with its frame: the page modulo F. It is kept, so that the next page's frame is had without a
/// division.
#[derive(Clone, Copy)]
pub struct Placed {
    pub page: u64,
    pub frame: usize,
}

impl Placed {
    /// The next page, if there are so many frames.
    #[inline(always)]
    pub fn next(self, frames: usize) -> Placed
        requires placed { self.frame ≡ self.page % frames }
        requires some { 0 < frames }
        requires room { (self.page < 2 ^ 63) × (frames < 2 ^ 32) }
        ensures page { result.page ≡ self.page + 1 }
        ensures frame { result.frame ≡ (self.page + 1) % frames }
    {
        let frame = self.frame + 1;
        Placed {
            page: self.page + 1,
            frame: if frame == frames { 0 } else { frame },
        }
    }

    /// The lower one of two pages.
    #[inline(always)]
    pub fn min(self, other: Placed) -> Placed
        ensures page { result.page ≡ min self.page other.page }
        ensures placed { (frames : ℕ) → self.frame ≡ self.page % frames → other.frame ≡ other.page % frames
            → result.frame ≡ result.page % frames }
    {
        if other.page < self.page { other } else { self }
    }
}
