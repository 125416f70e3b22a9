//! The program as one function: words, a script and streams in memory, and a status.
use hl_command_line::command;
use std::alloc::Global;
use std::process::Abort;
use std::sync::Wait;
use std::thread::Threads;

/// The words of a command, the script that it reads, its status, and the text that it writes.
#[derive(Clone, Copy)]
struct Case<'a> {
    words: &'a [&'a str],
    script: &'a str,
    status: u8,
    text: &'a str,
}

// A command that was done writes nothing on the errors; one whose words are refused says there why.
fn answers<R>(rt: &R, alloc: Global, case: Case<'_>)
where
    R: Threads + Wait + Abort + Sync,
{
    let (mut text, mut errors) = (Vec::new(alloc), Vec::new(alloc));
    let mut script = case.script.as_bytes();
    let status = command(rt, alloc, case.words, &mut script, &mut text, &mut errors);
    assert_eq!(rt; status, case.status);
    assert_eq!(rt; text.as_slice(), case.text.as_bytes());
    assert_eq!(rt; errors.is_empty(), status == 0);
}

#[test]
fn races_by_words(rt: HostRuntime) {
    let cases: [(&[&str], u8, &str); 5] = [
        (&["hl_tool", "race", "2", "10"], 0, "race 2 10 ok\n"),
        (
            &["hl_tool", "race", "2", "10", "--cut"],
            0,
            "race 2 10 ok\n",
        ),
        (&["hl_tool", "race", "0", "10"], 2, ""),
        (&["hl_tool", "race", "9", "10"], 2, ""),
        (&["hl_tool", "race", "2", "1001"], 2, ""),
    ];
    for (words, status, text) in cases {
        let case = Case {
            words,
            script: "",
            status,
            text,
        };
        answers(&rt, rt.alloc(), case);
    }
}

const FIRST_ACTION: &str =
    "config 4 2 2 2\nacquire 0\nbump 7\ntake\nrefresh 0\ntake\ndone 1\ntake\nstatus\n";

const FIRST_ACTION_REPORT: &str = "\
epoch                              2
safe                               1
protected                          1
pending                            0
taken                              0
closed_at                          0
head                               0
flushed_to                         0
safe_read_only                     0
read_only                          0
tail                               0
open                               0
sealed                             0
flushed                            0
closed                             0
free                               2
steps                              5
cut                                0
";

#[test]
fn a_report_by_words(rt: HostRuntime) {
    let case = Case {
        words: &["hl_tool", "report"],
        script: FIRST_ACTION,
        status: 0,
        text: FIRST_ACTION_REPORT,
    };
    answers(&rt, rt.alloc(), case);
}
