//! Worked examples: each is asked of a keeper that stands alone and of a domain, over both tables of epochs.
use crate::follow::{Example, follow};
use std::test::Fail;

// A pass stores until it has no room for another touch. Another sees a raise, and stores below it no longer.
const TOUCHES: Example = Example {
    riders: 3,
    journal: 100,
    calls: "acquire 0 -> view 0 0 0
stamp 0 -> answer 1001
alloc 0 4 -> at 0
write 0 1 5 -> written
read 0 1 -> value 5
refresh 0 -> view 0 0 4
32 times write 0 2 7 -> written
write 0 2 7 -> fault 25 TouchesFull
acquire 1 -> view 0 0 4
stamp 1 -> answer 1002
raise 4 -> read_only 4
refresh 1 -> view 4 0 4
write 1 1 6 -> fault 17 Below read_only 4
release 0 -> left
release 1 -> left",
    end: "shares 37 3 1
cut 0
base 1 0 0 0 0 0 0 0 0, slot, slot, frame, frame
journal 41
acquire 0
alloc 0 4
write 0 1 5
refresh 0
acquire 1
raise 4
refresh 1
write 0 2 7
",
};

// The same by a look.
const LOOK: Example = Example {
    riders: 3,
    journal: 100,
    calls: "acquire 0 -> view 0 0 0
stamp 0 -> answer 1001
alloc 0 4 -> at 0
acquire 1 -> view 0 0 4
stamp 1 -> answer 1002
raise 4 -> read_only 4
look 1 -> view 4 0 4
write 1 1 6 -> fault 17 Below read_only 4
release 0 -> left
release 1 -> left",
    end: "shares 3 3 1
cut 0
base 1 0 0 0 0 0 0 0 0, slot, slot, frame, frame
journal 7
acquire 0
alloc 0 4
acquire 1
raise 4
release 0
look 1 4 0
release 1
",
};

// A word that one pass stores another loads; then an action is stored, and left.
const LEFT_ACTION: Example = Example {
    riders: 3,
    journal: 100,
    calls: "acquire 0 -> view 0 0 0
acquire 1 -> view 0 0 0
alloc 0 4 -> at 0
write 0 1 5 -> written
refresh 1 -> view 0 0 4
read 1 1 -> value 5
bump 9 -> ticket 1
release 0 -> left
release 1 -> left",
    end: "shares 4 3 1
cut 0
base 1 0 0 0 0 0 0 0 0, slot, slot, frame, frame
left user 1 9
journal 8
acquire 0
acquire 1
alloc 0 4
refresh 1
bump 9
write 0 1 5
release 0
release 1
",
};

// The pages are settled, the first is flushed, and the head is shifted over it. The second slot reads the page until
// it has seen the close; once the page is clean, its frame is used again.
const STALE_READER: Example = Example {
    riders: 3,
    journal: 100,
    calls: "acquire 0 -> view 0 0 0
alloc 0 4 -> at 0
alloc 0 4 -> at 4
acquire 1 -> view 0 0 8
alloc 0 1 -> fault 15 Busy page 2
raise 8 -> read_only 8
settle -> ticket 1
refresh 0 -> view 8 0 8
refresh 1 -> view 8 0 8
take -> taken 1
done 1 -> safe_read_only 8
flush take -> page 0
flush done 0 ok -> flushed 4
shift 4 -> head 4
close -> ticket 2
read 1 0 -> value 0
refresh 0 -> view 8 4 8
take -> fault 8 NotReady front 2 safe 1
alloc 0 1 -> fault 15 Busy page 2
refresh 1 -> view 8 4 8
take -> taken 2
done 2 -> closed 4
read 1 0 -> fault 19 Evicted head 4
alloc 0 1 -> fault 15 Busy page 2
clean take -> page 0
clean done 0 -> freed 0
alloc 0 1 -> at 8
release 0 -> left
release 1 -> left",
    end: "shares 7 4 12
cut 0
base 1 0 0 0 0 0 0 0 0, slot, slot, frame, frame
journal 23
acquire 0
",
};

// A page is filled, settled and flushed.
const SETTLED_PAGE: Example = Example {
    riders: 2,
    journal: 100,
    calls: "acquire 0 -> view 0 0 0
alloc 0 4 -> at 0
raise 4 -> read_only 4
settle -> ticket 1
take -> fault 8 NotReady front 1 safe 0
refresh 0 -> view 4 0 4
take -> taken 1
done 1 -> safe_read_only 4
flush take -> page 0
flush done 0 ok -> flushed 4
flush take -> fault 20 NoneSealed
abandon 0 -> left",
    end: "shares 3 6
cut 0
base 1 0 0 0 0 0 0 0 0, slot, slot, frame, frame
journal 9
acquire 0
alloc 0 4
raise 4
settle
refresh 0
take
done 1
flush take
flush done 0 ok
",
};

// A settle waits for a slot that nobody will release. The other rider isn't given the slot.
const ABANDONED_PASS: Example = Example {
    riders: 2,
    journal: 100,
    calls: "acquire 0 -> view 0 0 0
alloc 0 4 -> at 0
write 0 0 7 -> written
abandon 0 -> left
raise 4 -> read_only 4
settle -> ticket 1
take -> fault 8 NotReady front 1 safe 0
claim 0 -> fault 2 Occupied",
    end: "shares 2 2
cut 0
base 1 0 0 0 0 0 0 0 0, slot, slot, frame, frame
left settle 1 4
journal 4
acquire 0
alloc 0 4
raise 4
settle
",
};

// A page that is given up stays in flight.
const FORSAKEN_LOAD: Example = Example {
    riders: 3,
    journal: 100,
    calls: "acquire 0 -> view 0 0 0
alloc 0 4 -> at 0
raise 4 -> read_only 4
settle -> ticket 1
release 0 -> left
take -> taken 1
done 1 -> safe_read_only 4
flush take -> page 0
forsake 0 -> page 0
shift 4 -> fault 13 AboveFlushed
flush take -> fault 20 NoneSealed",
    end: "shares 0 3 5
cut 0
base 1 0 0 0 0 0 0 0 0, slot, slot, frame, frame
journal 8
acquire 0
alloc 0 4
raise 4
settle
release 0
take
done 1
flush take
",
};

// The journal has no room for a third step.
const FULL_JOURNAL: Example = Example {
    riders: 3,
    journal: 2,
    calls: "acquire 0 -> view 0 0 0
alloc 0 1 -> at 0
refresh 0 -> fault 27 JournalFull
release 0 -> fault 27 JournalFull
abandon 0 -> left",
    end: "shares 0 2 0
cut 0
base 1 0 0 0 0 0 0 0 0, slot, slot, frame, frame
journal 2
acquire 0
alloc 0 1
",
};

// There is no room for a step.
const NO_JOURNAL: Example = Example {
    riders: 3,
    journal: 0,
    calls: "bump 7 -> fault 27 JournalFull
bare -> fault 27 JournalFull
settle -> fault 27 JournalFull
cut -> answer 0
acquire 0 -> fault 27 JournalFull",
    end: "shares 0 0 0
cut 0
base 1 0 0 0 0 0 0 0 0, slot, slot, frame, frame
journal 0
",
};

// Four steps fill the journal; once they are cut, the next are kept.
const CUT_JOURNAL: Example = Example {
    riders: 2,
    journal: 4,
    calls: "acquire 0 -> view 0 0 0
alloc 0 4 -> at 0
refresh 0 -> view 0 0 4
write 0 1 5 -> written
raise 4 -> read_only 4
refresh 0 -> fault 27 JournalFull
cut -> answer 4
cut -> answer 0
refresh 0 -> view 4 0 4
release 0 -> left",
    end: "shares 6 1
cut 4
base 1 0 0 0 0 0 0 4 4, slot 1 0 0 4, slot, frame 0 0 0 0 0, frame
journal 3
write 0 1 5
refresh 0
release 0
",
};

// An action and two pages are taken, and a pass is acquired, which fills the journal: each locked call of a line that
// makes a step is refused. The snapshot that follows each of them shows that it has left the lock.
const FULL_AT_WORK: Example = Example {
    riders: 3,
    journal: 21,
    calls: "acquire 0 -> view 0 0 0
alloc 0 4 -> at 0
alloc 0 4 -> at 4
raise 8 -> read_only 8
settle -> ticket 1
refresh 0 -> view 8 0 8
take -> taken 1
done 1 -> safe_read_only 8
flush take -> page 0
flush done 0 ok -> flushed 4
shift 4 -> head 4
close -> ticket 2
refresh 0 -> view 8 4 8
take -> taken 2
done 2 -> closed 4
bump 9 -> ticket 3
release 0 -> left
take -> taken 3
flush take -> page 1
clean take -> page 0
acquire 0 -> view 8 4 8
settle -> fault 27 JournalFull
close -> fault 27 JournalFull
bump 9 -> fault 27 JournalFull
bare -> fault 27 JournalFull
raise 1 -> fault 27 JournalFull
shift 8 -> fault 27 JournalFull
take -> fault 27 JournalFull
flush take -> fault 27 JournalFull
clean take -> fault 27 JournalFull
done 3 -> fault 27 JournalFull
flush done 1 ok -> fault 27 JournalFull
clean done 0 -> fault 27 JournalFull
acquire 1 -> fault 27 JournalFull
refresh 0 -> fault 27 JournalFull
alloc 0 1 -> fault 27 JournalFull
release 0 -> fault 27 JournalFull
abandon 0 -> left",
    end: "shares 0 7 14
cut 0
base 1 0 0 0 0 0 0 0 0, slot, slot, frame, frame
journal 21
acquire 0
",
};

#[test]
fn worked_examples(rt: HostRuntime) -> Result<(), Fail> {
    for example in [
        &TOUCHES,
        &LOOK,
        &LEFT_ACTION,
        &STALE_READER,
        &SETTLED_PAGE,
        &ABANDONED_PASS,
        &FORSAKEN_LOAD,
        &FULL_JOURNAL,
        &NO_JOURNAL,
        &CUT_JOURNAL,
        &FULL_AT_WORK,
    ] {
        follow(&rt, rt.alloc(), example)?;
    }
    Ok(())
}
