//! Operations that are tried again.
ghost use Rattle.std.specs.Prelude.{◌≡◌, true, is_some};
ghost use Rattle.std.specs.Fn.{CalledAtMut};
ghost use Rattle.hl.specs.Attempts.{cure_of, told_if_refused, Attempts, SessionHelps};
ghost use Rattle.hl.specs.Helps.{in_vain, Helps};
ghost use Rattle.hl.specs.Traces.{OnlyMeets};

use super::Session;
use hl_action::{Promise, Task};
use hl_epoch::Epochs;
use hl_model::Fault;
use hl_words::Realm;
use std::sync::Wait;
use std::thread::Parker;
use std::time::Duration;

/// How long a thread naps that could do nothing for the log, in microseconds.
const NAP: u64 = 50;

/// What may cure the reason for which an operation was refused.
#[derive(Clone, Copy, PartialEq, Eq, Debug)]
pub enum Cure {
    /// A refresh, which a round of help makes: there is nobody to wait for.
    Refresh,
    /// What others do: they refresh, free a frame or cut the journal.
    Others,
}

/// Why an operation is refused that may be tried again: a [`Fault`], or an error of the engine's own.
pub trait Curable {
    ghost use Rattle.std.specs.Prelude.{Option, ⊤, ◌⊎◌, ◌≡◌};
    ghost use Rattle.hl.specs.declared.session.tries.Cure.{Cure as CURE};

    /// What holds of an error and of its cure: nothing, unless a program says so. If it says nothing of an
    /// engine's own error, [`attempt`]'s clause tells only that there were at most so many tries, with a round of help
    /// between two: neither that an error with a cure was followed by another try, nor that one without wasn't.
    ghost cures: { Self → Option CURE → Type 0 } = { λ _ _. ⊤ };

    /// Returns what may cure it; `None` if nothing does.
    fn cure(&self) -> Option<Cure>
        ensures { cures self.now result };

    /// What may be told in an error's place after the last try, if the device refuses what the crew writes: nothing else,
    /// unless a program says otherwise.
    ghost tells: { Self → Self → Type 0 } = { λ _ _. ⊥ };

    /// Returns what is told in its place then: the same, unless a program says otherwise.
    fn if_refused(self) -> Self
    where
        Self: Sized,
        ensures { (result ≡ self) ⊎ tells self result }
    {
        self
    }
}

/// `Beyond` and `TouchesFull` are cured by a refresh; `Busy`, `DrainFull`, `JournalFull` and `WindowFull` by others; no
/// other fault is. If the device refuses what the crew writes, `Busy` is told as `Device`: no frame comes free.
impl Curable for Fault {
    ghost cures = { λ fault cure. cure ≡ cure_of fault };

    ghost tells = { λ fault told. told ≡ told_if_refused fault };

    fn if_refused(self) -> Fault {
        match self {
            Fault::Busy { .. } => Fault::Device,
            _ => self,
        }
    }

    fn cure(&self) -> Option<Cure> {
        match self {
            Fault::Beyond { .. } | Fault::TouchesFull => Some(Cure::Refresh),
            Fault::Busy { .. } | Fault::DrainFull | Fault::JournalFull | Fault::WindowFull => {
                Some(Cure::Others)
            }
            _ => None,
        }
    }
}

/// That a thread has napped. Only a nap makes one.
#[derive(Drop)]
pub struct Napped {
    _made: (),
}

/// What came between two tries.
#[derive(Drop)]
pub struct Helped {
    /// Whether a round of help ran an action; or by what it was refused.
    pub answer: Result<bool, Fault>,
    /// A nap behind it, if there was one.
    pub napped: Option<Napped>,
}

/// What can be helped on between two tries: a [`Session`], or what an engine keeps beside one. It is a trait since a
/// closure's bound can name a parameter of its function, and not yet a session's type.
pub trait Helping {
    ghost use Rattle.hl.specs.declared.session.tries.Cure.{Cure as CURE};
    ghost use Rattle.hl.specs.declared.session.tries.Helped.{Helped as HELPED};

    /// What a round of help for a cure makes.
    ghost helps: { Self → CURE → HELPED → Self → Type 0 };

    /// A round of help, and a short nap if others have to act and it ran no action.
    fn help_by(&mut self, cure: Cure) -> Helped
        ensures { helps self.old cure result self.new };

    /// Returns whether the device refused the newest of what the crew wrote: no, unless a program says otherwise.
    fn is_refused(&self) -> bool {
        false
    }
}

/// Runs an operation of a session, and again, at most `again` times, while it is refused for a reason that has a cure:
/// a [`Fault`] if it is `Busy`, `Beyond`, `TouchesFull`, `JournalFull`, `DrainFull` or `WindowFull`; an engine's own
/// error if its [`Curable::cure`] says so. Between two tries comes a round of [`help`](Session::help), and a short nap
/// if that ran no action and others have to act.
///
/// The operation begins anew each time: what an earlier try looked up isn't used again. A try that was refused holds no
/// lock of the program's: a thread that waits for one can't refresh.
///
/// Returns the last try's answer; an error without a cure is returned at once. If the device refuses what the crew writes by
/// then ([`refused_writes`](Session::refused_writes)), a last `Busy` is told as `Device`. What a round of help was refused
/// isn't told: the next try meets it.
pub fn attempt<S: Helping, T, X: Curable + Drop, O: FnMut(&mut S) -> Result<T, X>>(
    session: &mut S,
    again: u32,
    mut operation: O,
) -> Result<T, X>
    requires callable { O.IsAlwaysCallable operation }
    ensures attempted { Attempts (CalledAtMut O.FnMut) X.cures X.tells S.helps again
        result operation session.old session.new }
{
    for _ in 0..again {
        match operation(session) {
            Ok(out) => return Ok(out),
            Err(error) => match error.cure() {
                None => return Err(error),
                Some(cure) => {
                    let _ = session.help_by(cure);
                }
            },
        }
    }
    match operation(session) {
        Ok(out) => Ok(out),
        Err(error) => {
            if session.is_refused() {
                Err(error.if_refused())
            } else {
                Err(error)
            }
        }
    }
}

impl<'a, R: Wait, L: Realm, F: Task, P: Promise, E: Epochs + Drop> Helping
    for Session<'a, R, L, F, P, E> {
    ghost helps = { SessionHelps F.gives P.keeps };

    fn help_by(&mut self, cure: Cure) -> Helped {
        let answer = self.help();
        let napped = match cure {
            Cure::Refresh => None,
            Cure::Others => nap_in_vain(self.rt, &answer),
        };
        Helped { answer, napped }
    }

    fn is_refused(&self) -> bool {
        self.refused_writes() > 0
    }
}

impl<'a, R: Wait, L: Realm, F: Task, P: Promise, E: Epochs + Drop> Session<'a, R, L, F, P, E> {
    // A round of help; then a nap, unless it ran an action.
    pub(crate) fn help_or_nap(&mut self) -> Result<bool, Fault>
        ensures helped { Helps F self.old.log self.old.beside.cuts F.gives P.keeps result
            self.old.pass self.new.pass }
        ensures did { OnlyMeets self.old self.new }
        ensures slot { self.new.pass.slot ≡ self.old.pass.slot }
        ensures log { self.new.log ≡ self.old.log }
        ensures beside { self.new.beside ≡ self.old.beside }
    {
        let helped = self.help();
        let _ = nap_in_vain(self.rt, &helped);
        helped
    }
}

// Whether a round of help was in vain: it found no action to run, or was refused. Then others have to act.
fn is_in_vain(helped: &Result<bool, Fault>) -> bool
    ensures { result ≡ in_vain helped.now }
{
    !matches!(helped, Ok(true))
}

// A nap after a round of help that was in vain.
fn nap_in_vain(rt: &impl Wait, helped: &Result<bool, Fault>) -> Option<Napped>
    ensures { is_some result ≡ in_vain helped.now }
{
    if is_in_vain(helped) {
        Some(nap(rt, helped))
    } else {
        None
    }
}

// A short nap, so that others go on: after what was in vain alone.
pub(super) fn nap(rt: &impl Wait, helped: &Result<bool, Fault>) -> Napped
    requires { in_vain helped.now ≡ true }
{
    Parker::new().park_timeout(rt, Duration::from_micros(NAP));
    Napped { _made: () }
}
