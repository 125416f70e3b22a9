ghost use Rattle.hl_script.specs.Fast.{adds};

use hl_action::Promise;

/// The promise of a script's jobs: each answers its tag + its ticket.
pub struct Sum;

impl Promise for Sum {
    ghost keeps = { adds };
}
