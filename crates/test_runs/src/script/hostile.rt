// Streams that fail at each of their calls, scripts that break off at each of their bytes, and few reads.
use super::*;

/// The first lines of a text.
fn first_lines(text: &[u8], lines: usize) -> &[u8] {
    let mut left = lines;
    for (at, byte) in text.iter().enumerate() {
        if left == 0 {
            return &text[..at];
        }
        if *byte == b'\n' {
            left -= 1;
        }
    }
    text
}

/// How many lines these bytes end.
fn ended_lines(bytes: &[u8]) -> usize {
    bytes.iter().filter(|byte| **byte == b'\n').count()
}

// Reads give one byte. The read after `left` of them fails; behind the last byte it would have told the end.
#[test]
fn each_read_fails_in_turn(rt: HostRuntime) {
    let script = STALE_READER.as_bytes();
    for left in 0..script.len() + 2 {
        let lines = ended_lines(&script[..left.min(script.len())]);
        let wanted = if left > script.len() {
            Ok(Some(22))
        } else {
            Err(Fault::Stream)
        };
        for form in FORMS {
            let mut reader = SlowReader {
                bytes: script,
                left,
            };
            let mut writer = Vec::new(rt.alloc());
            let answer = run_within(form, rt.alloc(), &mut reader, &mut writer, MANY);
            let text = first_lines(STALE_READER_TEXT.as_bytes(), lines);
            assert_eq!(rt; answer, wanted, "after {left} bytes");
            assert!(rt; writer.as_slice() == text, "after {left} bytes");
        }
    }
}

// Writes take one byte. The write after `left` of them fails, or the flush that is called then.
#[test]
fn each_write_fails_in_turn(rt: HostRuntime) {
    let text = STALE_READER_TEXT.as_bytes();
    for left in 0..text.len() + 2 {
        let wanted = if left > text.len() {
            Ok(Some(22))
        } else {
            Err(Fault::Stream)
        };
        for form in FORMS {
            let mut reader = STALE_READER.as_bytes();
            let mut writer = SmallWriter {
                taken: Vec::new(rt.alloc()),
                left,
                flushes: 1000,
                fails: true,
                calls_after: 0,
            };
            let answer = run_within(form, rt.alloc(), &mut reader, &mut writer, MANY);
            assert_eq!(rt; answer, wanted, "after {left} bytes");
            assert!(rt;
                writer.taken.as_slice() == &text[..left.min(text.len())],
                "{left}"
            );
            assert_eq!(rt;
                writer.calls_after,
                usize::from(left <= text.len()),
                "{left}"
            );
        }
    }
}

// The last line is whole where only its LF is missing, or where a number was cut behind its first digit.
#[test]
fn cut_after_each_byte(rt: HostRuntime) {
    let script = STALE_READER_WORDS.as_bytes();
    for length in 0..script.len() + 1 {
        let input = &script[..length];
        let lines = ended_lines(input);
        let last = input.last().copied().unwrap_or(b'\n');
        let next = script.get(length).copied().unwrap_or(b'\n');
        let is_good = next == b'\n' || (last.is_ascii_digit() && next.is_ascii_digit());
        let bad = last != b'\n' && !is_good;
        let one_more = lines.saturating_add(1);
        let answered = if last != b'\n' && is_good {
            one_more
        } else {
            lines
        };
        for form in FORMS {
            let mut reader = input;
            let mut writer = Vec::new(rt.alloc());
            let answer = run_within(form, rt.alloc(), &mut reader, &mut writer, MANY);
            let text = first_lines(STALE_READER_WORDS_TEXT.as_bytes(), answered);
            assert!(rt; writer.starts_with(text), "after {length} bytes");
            let rest = &writer[text.len()..];
            if bad {
                let n = one_more as u64;
                assert_eq!(rt; answer, Err(Fault::BadLine { n }), "after {length} bytes");
                assert!(rt; rest.starts_with(b"line ") && rest.ends_with(b": not a step\n"));
            } else {
                assert!(rt; answer.is_ok() && rest.is_empty(), "after {length} bytes");
            }
        }
    }
}

/// Gives `a` for ever.
#[derive(Drop)]
struct Endless;

impl Read for Endless {
    fn read(&mut self, buf: &mut [u8]) -> io::Result<usize> {
        buf.fill(b'a');
        Ok(buf.len())
    }
}

/// A script, its reads of one byte of which the one after `left` fails, and what is answered, written and not read.
#[derive(Clone, Copy)]
struct Stop<'a> {
    name: &'a str,
    script: &'a str,
    left: usize,
    reads: u64,
    text: &'a str,
    answer: Result<Option<u64>, Fault>,
    unread: usize,
}

fn stops(rt: &impl Abort, alloc: Global, form: Form, case: Stop<'_>) {
    let mut reader = SlowReader {
        bytes: case.script.as_bytes(),
        left: case.left,
    };
    let mut writer = Vec::new(alloc);
    let answer = run_within(form, alloc, &mut reader, &mut writer, case.reads);
    let name = case.name;
    assert_eq!(rt; answer, case.answer, "{name}");
    assert!(rt; writer.as_slice() == case.text.as_bytes(), "{name}");
    assert_eq!(rt; reader.bytes.len(), case.unread, "{name}");
}

// Reads give one byte; the read after `left` of them fails. What isn't read is left to the reader.
#[test]
fn stops_where_it_must(rt: HostRuntime) {
    let two_lines = "opened\nepoch 1 view 0 0 0\n";
    let three_lines = "opened\nepoch 1 view 0 0 0\nline 3: not a step\n";
    let of_81 = "opened\nline 2: not a step\n";
    let stream = Err(Fault::Stream);
    let cut = Err(Fault::BadLine { n: 3 });
    let long = Err(Fault::BadLine { n: 2 });
    let cases = [
        ("the end", CUT_INPUT, 1000, MANY, three_lines, cut, 0),
        ("a failed read", CUT_INPUT, 28, MANY, two_lines, stream, 0),
        ("no read", CUT_INPUT, 1000, 0, "", stream, 28),
        ("three reads", CUT_INPUT, 1000, 3, "", stream, 25),
        ("a read a byte", CUT_INPUT, 1000, 28, two_lines, stream, 0),
        ("one more", CUT_INPUT, 1000, 29, three_lines, cut, 0),
        ("80 bytes", AT_81_BYTES, 95, MANY, "opened\n", stream, 2),
        ("81 bytes", AT_81_BYTES, 96, MANY, of_81, long, 1),
    ];
    for (name, script, left, reads, text, answer, unread) in cases {
        let case = Stop {
            name,
            script,
            left,
            reads,
            text,
            answer,
            unread,
        };
        for form in FORMS {
            stops(&rt, rt.alloc(), form, case);
        }
    }
}

// A line without an end is told as a bad one.
fn stops_at_line_1(rt: &impl Abort, alloc: Global, form: Form) {
    let mut writer = Vec::new(alloc);
    let answer = run_within(form, alloc, &mut Endless, &mut writer, MANY);
    assert_eq!(rt; answer, Err(Fault::BadLine { n: 1 }));
    assert_eq!(rt; writer.as_slice(), b"line 1: not a step\n".as_slice());
}

#[test]
fn stops_at_an_endless_line(rt: HostRuntime) {
    for form in FORMS {
        stops_at_line_1(&rt, rt.alloc(), form);
    }
}

const AT_81_BYTES: &str =
    "config 4 2 2 2\naaaaaaaaaaaaaaaaaaaaaaaaaaaaaaaaaaaaaaaaaaaaaaaaaaaaaaaaaaaaaaaaaaaaaaaaaaaaaaaaaa";

const CUT_INPUT: &str = "config 4 2 2 2\nacquire 0\nbum";

const STALE_READER_WORDS: &str =
    "config 4 2 2 4\nacquire 0\nalloc 0 4\nalloc 0 4\nwrite 0 0 11\nwrite 0 1 12\nwrite 0 2 13\nwrite 0 3 14\nacquire 1\nalloc 0 1\nraise 8\nsettle\nrefresh 0\nrefresh 1\ntake\ndone 1\nflush take\nflush done 0 ok\nshift 4\nclose\nread 1 0\nrefresh 0\ntake\nalloc 0 1\nrefresh 1\ntake\ndone 2\nread 1 0\nalloc 0 1\nframes\nclean take\nclean done 0\nalloc 0 1\nread 0 8\nwrite 0 8 21\nread 0 8\nframes\n";

const STALE_READER_WORDS_TEXT: &str =
    "opened\nepoch 1 view 0 0 0\nat 0\nat 4\nwritten\nwritten\nwritten\nwritten\nepoch 1 view 0 0 8\nfault 15 Busy page 2\nread_only 8\nticket 1\nepoch 2 view 8 0 8\nepoch 2 view 8 0 8\ntaken 1\nsafe_read_only 8\npage 0\nflushed 4\nhead 4\nticket 2\nvalue 11\nepoch 3 view 8 4 8\nfault 8 NotReady front 2 safe 1\nfault 15 Busy page 2\nepoch 3 view 8 4 8\ntaken 2\nclosed 4\nfault 19 Evicted head 4\nfault 15 Busy page 2\nframes closed:0 sealed:1\npage 0\nfreed 0\nat 8\nvalue 0\nwritten\nvalue 21\nframes open:2 sealed:1\n";
