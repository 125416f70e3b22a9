ghost use Rattle.std.specs.Prelude.{◌≡◌, ◌+◌, ◌<◌, ◌≤◌, ◌^◌};

mod hostile;

use hl_action::{Firing, Kept, Shelf, Task};
use hl_counts::CountTable;
use hl_epoch::{Epochs, ScanTable};
use hl_model::Fault;
use hl_script::{Finished, Sum, run_text, run_text_within, slow_text, slow_text_within};
use std::alloc::Global;
use std::io;
use std::io::{Read, Write};
use std::process::Abort;

/// A job that answers its tag + its ticket.
#[derive(Drop)]
struct AddTicket {
    tag: u64,
}

impl Task for AddTicket {
    ghost can = { λ job firing. job.tag + firing.ticket < 2 ^ 64 };

    ghost gives = { λ job firing answer. answer ≡ job.tag + firing.ticket };

    fn call(self, firing: Firing) -> u64 {
        self.tag + firing.ticket()
    }
}

/// A shelf with a job for each tag below n.
fn shelf_of(alloc: Global, n: u64) -> Result<Shelf<AddTicket, Sum>, Fault>
    requires { n ≤ 1000 }
{
    let mut shelf = Shelf::open(alloc, n)?;
    for tag in 0..n {
        shelf.put(Kept::new(tag, AddTicket { tag }));
    }
    Ok(shelf)
}

/// How many tags have a job.
pub(crate) const TAGS: u64 = 64;

/// As many reads as any script here wants.
const MANY: u64 = 1000;

fn accepted<E: Epochs + Drop>(ended: Option<Finished<E, AddTicket>>) -> Option<u64> {
    ended.map(|end| end.accepted)
}

/// Runs a script over a table of epochs, and gives how many steps were accepted.
fn run_over<E: Epochs + Drop, R: Read, W: Write>(
    alloc: Global,
    reader: &mut R,
    writer: &mut W,
) -> Result<Option<u64>, Fault> {
    let shelf = shelf_of(alloc, TAGS)?;
    Ok(accepted::<E>(run_text(alloc, reader, writer, shelf)?))
}

/// The same in at most so many reads.
fn run_over_within<E: Epochs + Drop, R: Read, W: Write>(
    alloc: Global,
    reader: &mut R,
    writer: &mut W,
    reads: u64,
) -> Result<Option<u64>, Fault> {
    let shelf = shelf_of(alloc, TAGS)?;
    Ok(accepted::<E>(run_text_within(alloc, reader, writer, shelf, reads)?))
}

/// The forms of a run: the fast one over a table that scans and over one that counts, and the slow one.
#[derive(Clone, Copy)]
pub(crate) enum Form {
    Scanning,
    Counting,
    Slow,
}

const FORMS: [Form; 3] = [Form::Scanning, Form::Counting, Form::Slow];

/// Runs a script in a form.
pub(crate) fn run_form<R: Read, W: Write>(
    form: Form,
    alloc: Global,
    reader: &mut R,
    writer: &mut W,
) -> Result<Option<u64>, Fault> {
    match form {
        Form::Scanning => run_over::<ScanTable, R, W>(alloc, reader, writer),
        Form::Counting => run_over::<CountTable, R, W>(alloc, reader, writer),
        Form::Slow => slow_text(alloc, reader, writer, TAGS),
    }
}

/// The same in at most so many reads.
fn run_within<R: Read, W: Write>(
    form: Form,
    alloc: Global,
    reader: &mut R,
    writer: &mut W,
    reads: u64,
) -> Result<Option<u64>, Fault> {
    match form {
        Form::Scanning => run_over_within::<ScanTable, R, W>(alloc, reader, writer, reads),
        Form::Counting => run_over_within::<CountTable, R, W>(alloc, reader, writer, reads),
        Form::Slow => slow_text_within(alloc, reader, writer, TAGS, reads),
    }
}

/// Gives one byte a read. The read after `left` of them is interrupted, and one more would go on.
#[derive(Drop)]
struct SlowReader<'a> {
    bytes: &'a [u8],
    left: usize,
}

impl<'a> Read for SlowReader<'a> {
    fn read(&mut self, buf: &mut [u8]) -> io::Result<usize> {
        if self.left == 0 {
            self.left = usize::MAX;
            return Err(io::Error::from(io::ErrorKind::Interrupted));
        }
        match (buf.first_mut(), self.bytes.first()) {
            (Some(place), Some(byte)) => *place = *byte,
            _ => return Ok(0),
        }
        self.left -= 1;
        self.bytes = &self.bytes[1..];
        Ok(1)
    }
}

/// Takes one byte a write. The write after `left` of them takes none, or fails, and so does the flush after `flushes`.
#[derive(Drop)]
struct SmallWriter {
    taken: Vec<u8>,
    left: usize,
    flushes: usize,
    fails: bool,
    calls_after: usize,
}

impl Write for SmallWriter {
    fn write(&mut self, buf: &[u8]) -> io::Result<usize> {
        if self.left == 0 || self.flushes == 0 {
            self.calls_after = self.calls_after.saturating_add(1);
            return if self.fails {
                Err(io::Error::from(io::ErrorKind::Interrupted))
            } else {
                Ok(0)
            };
        }
        self.left -= 1;
        self.taken.write(&buf[..buf.len().min(1)])
    }

    fn flush(&mut self) -> io::Result<()> {
        if self.left == 0 || self.flushes == 0 {
            self.calls_after = self.calls_after.saturating_add(1);
            return Err(io::Error::from(io::ErrorKind::Interrupted));
        }
        self.flushes -= 1;
        Ok(())
    }
}

const FIRST_ACTION: &str =
    "config 4 2 2 2\nacquire 0\nbump 7\ntake\nrefresh 0\ntake\ndone 1\ntake\nstatus\n";

const FIRST_ACTION_TEXT: &str =
    "opened\nepoch 1 view 0 0 0\nticket 1\nfault 8 NotReady front 1 safe 0\nepoch 2 view 0 0 0\ntaken 1\nanswer 8\nfault 7 Empty\nstatus epoch 2 safe 1 pending 0 taken 0 closed 0 head 0 flushed 0 safe_read_only 0 read_only 0 tail 0\n";

const FUZZY_REGION: &str =
    "config 4 2 2 4\nacquire 0\nalloc 0 4\nraise 4\nacquire 1\nsettle\nwrite 0 1 99\nwrite 1 1 5\nrefresh 1\ntake\nrefresh 0\ntake\n";

const FUZZY_REGION_TEXT: &str =
    "opened\nepoch 1 view 0 0 0\nat 0\nread_only 4\nepoch 1 view 4 0 4\nticket 1\nwritten\nfault 17 Below read_only 4\nepoch 2 view 4 0 4\nfault 8 NotReady front 1 safe 0\nepoch 2 view 4 0 4\ntaken 1\n";

const STALE_READER: &str =
    "config 4 2 2 4\nacquire 0\nalloc 0 4\nalloc 0 4\nacquire 1\nalloc 0 1\nraise 8\nsettle\nrefresh 0\nrefresh 1\ntake\ndone 1\nflush take\nflush done 0 ok\nshift 4\nclose\nread 1 0\nrefresh 0\ntake\nalloc 0 1\nrefresh 1\ntake\ndone 2\nread 1 0\nalloc 0 1\nframes\nclean take\nclean done 0\nalloc 0 1\nframes\n";

const STALE_READER_TEXT: &str =
    "opened\nepoch 1 view 0 0 0\nat 0\nat 4\nepoch 1 view 0 0 8\nfault 15 Busy page 2\nread_only 8\nticket 1\nepoch 2 view 8 0 8\nepoch 2 view 8 0 8\ntaken 1\nsafe_read_only 8\npage 0\nflushed 4\nhead 4\nticket 2\nvalue 0\nepoch 3 view 8 4 8\nfault 8 NotReady front 2 safe 1\nfault 15 Busy page 2\nepoch 3 view 8 4 8\ntaken 2\nclosed 4\nfault 19 Evicted head 4\nfault 15 Busy page 2\nframes closed:0 sealed:1\npage 0\nfreed 0\nat 8\nframes open:2 sealed:1\n";

/// Compares what it is given with what is left of a text, and keeps none of it.
#[derive(Drop)]
struct ComparingWriter<'a> {
    left: &'a [u8],
    differs: bool,
}

impl<'a> Write for ComparingWriter<'a> {
    fn write(&mut self, buf: &[u8]) -> io::Result<usize> {
        if self.left.starts_with(buf) {
            self.left = &self.left[buf.len()..];
        } else {
            self.differs = true;
        }
        Ok(buf.len())
    }

    fn flush(&mut self) -> io::Result<()> {
        Ok(())
    }
}

/// A script, its text, and how many steps it accepts.
#[derive(Clone, Copy)]
struct Whole<'a> {
    name: &'a str,
    script: &'a str,
    text: &'a str,
    accepted: u64,
}

// Whole lines are written where memory is refused, and all of them where it isn't.
fn writes_whole_lines(rt: &impl Abort, alloc: Global, form: Form, case: Whole<'_>) {
    let text = case.text.as_bytes();
    let mut reader = case.script.as_bytes();
    let mut writer = ComparingWriter {
        left: text,
        differs: false,
    };
    let answer = run_form(form, alloc, &mut reader, &mut writer);
    let written = &text[..text.len().saturating_sub(writer.left.len())];
    let wanted = match answer {
        Err(Fault::OutOfMemory) => match form {
            Form::Slow => written.is_empty() || written.ends_with(b"\n"),
            _ => written.is_empty(),
        },
        answer => answer == Ok(Some(case.accepted)) && writer.left.is_empty(),
    };
    let name = case.name;
    assert!(rt; wanted && !writer.differs, "{name}");
}

// With `rt try --test --fail-alloc N` memory is refused at the N-th allocation: all runs before it are whole.
#[test]
fn writes_whole_lines_where_memory_is_refused(rt: HostRuntime) {
    let cases = [
        ("first action", FIRST_ACTION, FIRST_ACTION_TEXT, 5),
        ("fuzzy region", FUZZY_REGION, FUZZY_REGION_TEXT, 9),
        ("stale reader", STALE_READER, STALE_READER_TEXT, 22),
    ];
    for (name, script, text, accepted) in cases {
        for form in FORMS {
            let case = Whole {
                name,
                script,
                text,
                accepted,
            };
            writes_whole_lines(&rt, rt.alloc(), form, case);
        }
    }
}

const LAST_TAG: &str = "config 4 2 1 1\nbump 1048575\n";

const LAST_TAG_TEXT: &str = "opened\nticket 1\n";

// A bump of the last of very many tags is answered.
fn last_tag<E: Epochs + Drop>(rt: &impl Abort, alloc: Global) -> Result<(), Fault> {
    let tag = (1 << 20) - 1;
    let mut shelf = Shelf::open(alloc, 1 << 20)?;
    shelf.put(Kept::new(tag, AddTicket { tag }));
    let mut text = Vec::new(alloc);
    let ended = run_text(alloc, &mut LAST_TAG.as_bytes(), &mut text, shelf)?;
    assert_eq!(rt; accepted::<E>(ended), Some(1));
    assert_eq!(rt; text.as_slice(), LAST_TAG_TEXT.as_bytes());
    Ok(())
}

fn last_tag_slowly(rt: &impl Abort, alloc: Global) -> Result<(), Fault> {
    let mut text = Vec::new(alloc);
    let accepted = slow_text(alloc, &mut LAST_TAG.as_bytes(), &mut text, 1 << 62)?;
    assert_eq!(rt; accepted, Some(1));
    assert_eq!(rt; text.as_slice(), LAST_TAG_TEXT.as_bytes());
    Ok(())
}

#[test]
fn many_tags(rt: HostRuntime) -> Result<(), Fault> {
    last_tag::<ScanTable>(&rt, rt.alloc())?;
    last_tag::<CountTable>(&rt, rt.alloc())?;
    last_tag_slowly(&rt, rt.alloc())
}

/// How a writer fails, and what it takes before.
#[derive(Clone, Copy)]
struct Failing<'a> {
    name: &'a str,
    left: usize,
    flushes: usize,
    fails: bool,
    taken: &'a str,
}

// After its first failure the writer is called no more.
fn stops_at(rt: &impl Abort, alloc: Global, form: Form, case: Failing<'_>) {
    let mut reader = SlowReader {
        bytes: FIRST_ACTION.as_bytes(),
        left: 1000,
    };
    let mut writer = SmallWriter {
        taken: Vec::new(alloc),
        left: case.left,
        flushes: case.flushes,
        fails: case.fails,
        calls_after: 0,
    };
    let answer = run_form(form, alloc, &mut reader, &mut writer);
    let name = case.name;
    assert_eq!(rt; answer, Err(Fault::Stream), "{name}");
    assert!(rt; writer.taken.as_slice() == case.taken.as_bytes(), "{name}");
    assert_eq!(rt; writer.calls_after, 1, "{name}");
}

#[test]
fn stops_at_a_writer_that_fails(rt: HostRuntime) {
    let text = "opened\nepoch 1 view 0 0 0\n";
    let cases = [
        ("a write fails", 12, 1000, true, "opened\nepoch"),
        ("a write takes nothing", 12, 1000, false, "opened\nepoch"),
        ("a flush fails", 1000, 26, true, text),
    ];
    for (name, left, flushes, fails, taken) in cases {
        for form in FORMS {
            let case = Failing {
                name,
                left,
                flushes,
                fails,
                taken,
            };
            stops_at(&rt, rt.alloc(), form, case);
        }
    }
}
