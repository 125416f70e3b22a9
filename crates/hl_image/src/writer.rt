ghost use Rattle.std.specs.Prelude.{◌≡◌, ◌≢◌, ℕ, ◌^◌, ◌≤◌, List, OnOk, OnErr, IfErr, ⊤};
ghost use Rattle.hl_image.specs.Failures.{one_more};

use hl_model::Fault;

/// The count of failures stays here.
const FAILURES_LAST: u64 = 1 << 62;

/// What takes the images of pages: a device, or what stands for one.
pub trait PageWriter {
    /// What a write that returned Ok did: the writer before, the page, its bytes, the writer after.
    ghost wrote: { Self → ℕ → List ℕ → Self → Type 0 };

    /// What a write that failed did, told the same.
    ghost failed: { Self → ℕ → List ℕ → Self → Type 0 };

    /// How many writes failed: 2^62 stands for that many or more.
    ghost failures: { Self → ℕ };

    /// What the writer has of a page: that its image is these bytes. Nothing, unless a writer says so.
    ghost has: { Self → ℕ → List ℕ → Type 0 } = { λ _ _ _. ⊤ };

    /// Writes the bytes of a page.
    ///
    /// Fault: `Device` if they could not be written; the failure is counted.
    fn write_page(&mut self, page: u64, bytes: &[u8]) -> Result<(), Fault>
        ensures ok { OnOk result (wrote self.old page bytes.now self.new) }
        ensures none_counted { OnOk result (failures self.new ≡ failures self.old) }
        ensures err { IfErr result (λ fault. fault ≡ Fault.Device) }
        ensures left { OnErr result (failed self.old page bytes.now self.new) }
        ensures has { OnOk result (has self.new page bytes.now) }
        ensures others { (other : ℕ) (image : List ℕ) → other ≢ page
            → has self.old other image → has self.new other image }
        ensures one_counted { OnErr result (failures self.new ≡ one_more (failures self.old)) };

    /// How many writes failed since the writer was made: 2^62 stands for that many or more.
    fn failures(&self) -> u64
        ensures value { result ≡ failures self.now }
        ensures most { result ≤ 2 ^ 62 };
}

/// Returns a writer's count of failures with one more; it stays at 2^62.
pub fn with_one_more(failures: u64) -> u64
    requires { failures ≤ 2 ^ 62 }
    ensures value { result ≡ one_more failures }
    ensures most { result ≤ 2 ^ 62 }
{
    FAILURES_LAST.min(failures + 1)
}
