use hl_image::{HexWriter, MemoryWriter, PageWriter, image_of};
use hl_model::Fault;
use std::alloc::Global;
use std::io;
use std::io::{ErrorKind, Write};
use std::process::Abort;
use std::test::Fail;

/// The image of page 0 with the words 1, 0, 0 and 258.
const IMAGE: [u8; 40] = [
    0, 0, 0, 0, 0, 0, 0, 0, //
    0, 0, 0, 0, 0, 0, 0, 1, //
    0, 0, 0, 0, 0, 0, 0, 0, //
    0, 0, 0, 0, 0, 0, 0, 0, //
    0, 0, 0, 0, 0, 0, 1, 2,
];

const LINE: &str =
    "image 00000000000000000000000000000001000000000000000000000000000000000000000000000102\n";

// A page is written, and no failure counted.
fn accepts_page_0<W: PageWriter>(rt: &impl Abort, writer: &mut W, image: &[u8]) {
    assert_eq!(rt;
        (writer.write_page(0, image), writer.failures()),
        (Ok(()), 0)
    );
}

fn memory_keeps_page_0(rt: &impl Abort, alloc: Global, image: &[u8]) -> Result<(), Fail> {
    let mut memory = MemoryWriter::open(alloc, 1, 40)?;
    accepts_page_0(rt, &mut memory, image);
    assert_eq!(rt; memory.image(0), Some(IMAGE.as_slice()));
    Ok(())
}

fn page_0_is_a_line(rt: &impl Abort, alloc: Global, image: &[u8]) {
    let mut lines = HexWriter::new(Vec::new(alloc));
    accepts_page_0(rt, &mut lines, image);
    assert_eq!(rt; lines.into_inner().as_slice(), LINE.as_bytes());
}

#[test]
fn writers_by_the_trait(rt: HostRuntime) -> Result<(), Fail> {
    let mut image = [9; 40];
    image_of(0, &[1, 0, 0, 258], &mut image);
    assert_eq!(rt; image, IMAGE);
    page_0_is_a_line(&rt, rt.alloc(), &image);
    memory_keeps_page_0(&rt, rt.alloc(), &image)
}

// A million pages are kept in memory, and the last page of a log of the smallest pages is a line.
#[test]
fn writers_of_many_pages(rt: HostRuntime) -> Result<(), Fail> {
    let mut memory = MemoryWriter::open(rt.alloc(), 1 << 20, 8)?;
    assert_eq!(rt; memory.write_page((1 << 20) - 1, &[7; 8]), Ok(()));
    let mut lines = HexWriter::new(Vec::new(rt.alloc()));
    assert_eq!(rt; lines.write_page((1 << 46) - 1, &IMAGE), Ok(()));
    Ok(())
}

/// Takes up to seven bytes a call, and answers by an error in one call: the call `fails_at`, counted from 1.
#[derive(Drop)]
struct Short {
    taken: Vec<u8>,
    calls: u64,
    fails_at: u64,
}

impl Write for Short {
    fn write(&mut self, buf: &[u8]) -> io::Result<usize> {
        self.calls = self.calls.saturating_add(1);
        if self.calls == self.fails_at {
            return Err(ErrorKind::Interrupted.into());
        }
        self.taken.write(&buf[..buf.len().min(7)])
    }

    fn flush(&mut self) -> io::Result<()> {
        Ok(())
    }
}

// The first write of the page fails, and the second one doesn't.
fn writes_again(rt: &impl Abort, writer: &mut HexWriter<Short>) {
    let answers = [writer.write_page(0, &IMAGE), writer.write_page(0, &IMAGE)];
    assert_eq!(rt;
        (answers, writer.failures()),
        ([Err(Fault::Device), Ok(())], 1)
    );
}

// The word and the space, seven digits, and no further call; then the whole line in 15 calls.
fn took_both(rt: &impl Abort, below: &Short) {
    assert!(rt; below.taken.starts_with(&LINE.as_bytes()[..13]));
    assert!(rt; below.taken.ends_with(LINE.as_bytes()));
    assert!(rt; below.taken.len() == 13 + LINE.len() && below.calls == 18);
}

#[test]
fn a_write_that_fails_in_mid_line(rt: HostRuntime) {
    let mut writer = HexWriter::new(Short {
        taken: Vec::new(rt.alloc()),
        calls: 0,
        fails_at: 3,
    });
    writes_again(&rt, &mut writer);
    took_both(&rt, &writer.into_inner());
}
