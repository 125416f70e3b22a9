ghost use Rattle.std.specs.Prelude.{◌≡◌};

use crate::firing::Firing;
use crate::promise::Promise;
use crate::task::Task;

/// The job of an allocator that stores none, but settles and closes alone. Nobody can make one.
#[derive(Drop)]
pub struct NoJob(());

impl Task for NoJob {
    ghost can = { λ job firing. firing ≡ firing };

    ghost gives = { λ job firing answer. answer ≡ answer };

    fn call(self, firing: Firing) -> u64 {
        firing.ticket()
    }
}

/// The promise that whatever a job returns keeps.
pub struct AnyAnswer;

impl Promise for AnyAnswer {
    ghost keeps = { λ tag firing answer. answer ≡ answer };
}
