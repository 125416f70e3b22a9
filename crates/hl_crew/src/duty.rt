ghost use Rattle.std.specs.Prelude.{◌≡◌, ◌<◌, ◌≤◌, ◌↔◌, Some, None, IsSome, IfSome};

use hl_model::HasSizes;

/// The limits of a crew that serves: how many pages at the tail may be written, how many may be read, and when the
/// journal is cut. Each number is in range: that is in its type.
///
/// Fewer pages stay resident than there are frames. The head goes up to where the page N - resident
/// begins, N being the number of pages up to the tail, and page N needs the frame of page N - F.
/// With as many resident pages as frames, the head never passes that page: its frame never comes
/// free, and each allocation behind it is answered `Busy` for good.
#[derive(Clone, Copy, Debug, PartialEq, Eq)]
pub struct Duty {
    frames: u64,
    mutable: u64,
    resident: u64,
    cut_above: Option<u64>,
    ghost some_mutable: { 1 ≤ mutable },
    ghost mutable_stay: { mutable ≤ resident },
    ghost some_free: { resident < frames },
}

impl Duty {
    /// Returns a duty by which about `mutable` pages at the tail may be written and about `resident` may be read, in a
    /// domain of these sizes: `1 <= mutable <= resident < F`, else `None`. The journal is never
    /// cut.
    pub fn checked<S: HasSizes>(params: S, mutable: u64, resident: u64) -> Option<Duty>
        ensures some { IsSome result
            ↔ ((1 ≤ mutable) × (mutable ≤ resident) × (resident < (S.sizes_of params).frames)) }
        ensures told { IfSome result (λ duty. (duty.frames ≡ (S.sizes_of params).frames)
            × (duty.mutable ≡ mutable) × (duty.resident ≡ resident) × (duty.cut_above ≡ None)) }
    {
        let frames = params.sizes().frames();
        if mutable < 1 || resident < mutable || frames <= resident {
            return None;
        }
        Some(Duty {
            frames,
            mutable,
            resident,
            cut_above: None,
        })
    }

    /// Returns the same duty, but the journal is cut at the end of each turn that leaves more than this many
    /// steps in it, and when a call of the crew's own finds it full.
    pub fn cutting_above(self, steps: u64) -> Duty
        ensures { result ≡ record self { cut_above = Some steps } }
    {
        Duty {
            frames: self.frames,
            mutable: self.mutable,
            resident: self.resident,
            cut_above: Some(steps),
        }
    }

    /// Returns how many frames the domains have for which it was checked.
    pub fn frames(self) -> u64
        ensures { result ≡ self.frames }
    {
        self.frames
    }

    /// Returns how many pages at the tail may be written.
    pub fn mutable(self) -> u64
        ensures { result ≡ self.mutable }
    {
        self.mutable
    }

    /// Returns how many pages at the tail may be read.
    pub fn resident(self) -> u64
        ensures { result ≡ self.resident }
    {
        self.resident
    }

    /// Returns how many steps the journal may have at the end of a turn; `None` if it is never cut.
    pub fn cut_above(self) -> Option<u64>
        ensures { result ≡ self.cut_above }
    {
        self.cut_above
    }
}
