//! How a list is looked back over.

ghost use Rattle.std.specs.Prelude.{◌≡◌, ◌≤◌, Bool, length};
ghost use Rattle.std.specs.Fn.{FnReturnsAt};
ghost use Rattle.hl_model.specs.Lists.{until_last};

/// How many elements lead up to the last that passes, that one counted.
pub fn until_last<T, F: Fn(&T) -> bool>(row: &[T], passes: F) -> usize
    requires { F.IsAlwaysCallable passes }
    ensures place { (p : T → Bool)
        → ((x : T) (r : Bool) → FnReturnsAt F.Fn passes x r → r ≡ p x) → result ≡ until_last p row.now }
    ensures within { result ≤ length row.now }
{
    let mut last = 0;
    for (i, x) in row.iter().enumerate() {
        if passes(x) {
            last = i + 1;
        }
    }
    last
}
