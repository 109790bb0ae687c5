// Writers that hold bytes back, or fail, and readers that fail.
use std::alloc::{AllocError, Global};
use std::io::{self, ErrorKind, Read, Write};
use std::test::Fail;
use tx_outside::{Failed, Sink, Source};
use tx_system::{StandardInput, StandardOutput};

// What fails.
#[derive(Clone, Copy, PartialEq, Eq)]
enum Failing {
    Nothing,
    Write,
    Flush,
}

// A writer that takes three bytes at a time, and holds them back until it is flushed.
#[derive(Drop)]
struct HoldingWriter {
    failing: Failing,
    held: Vec<u8>,
    given: Vec<u8>,
}

impl HoldingWriter {
    fn unless(&self, failing: Failing) -> io::Result<()> {
        if self.failing == failing {
            return Err(io::Error::from(ErrorKind::Other));
        }
        Ok(())
    }
}

impl Write for HoldingWriter {
    fn write(&mut self, buf: &[u8]) -> io::Result<usize> {
        self.unless(Failing::Write)?;
        let count = buf.len().min(3);
        self.held.extend_from_slice(&buf[..count])?;
        Ok(count)
    }

    fn flush(&mut self) -> io::Result<()> {
        self.unless(Failing::Flush)?;
        self.given.extend_from_slice(&self.held)?;
        self.held.clear();
        Ok(())
    }
}

// What a write of five bytes returns, and how many bytes were given on.
fn written(alloc: Global, failing: Failing) -> (Result<usize, Failed>, usize) {
    let mut writer = HoldingWriter {
        failing,
        held: Vec::new(alloc),
        given: Vec::new(alloc),
    };
    let answer = StandardOutput::new(&mut writer).write(b"reply");
    (answer, writer.given.len())
}

#[test]
fn a_write_is_flushed_at_once(rt: HostRuntime) -> Result<(), Fail> {
    let rows = [
        (Failing::Nothing, Ok(3), 3),
        (Failing::Write, Err(Failed), 0),
        (Failing::Flush, Err(Failed), 0),
    ];
    for (failing, answer, given) in rows {
        assert!(rt; written(rt.alloc(), failing) == (answer, given));
    }
    Ok(())
}

// A reader that gives the bytes 1 to 7, at most four at a time, and fails at the third read.
#[derive(Drop)]
struct FailingReader {
    reads: usize,
}

impl Read for FailingReader {
    fn read(&mut self, buf: &mut [u8]) -> io::Result<usize> {
        self.reads = self.reads.saturating_add(1);
        let bytes: &[u8] = match self.reads {
            1 => &[1, 2, 3, 4],
            2 => &[5, 6, 7],
            3 => return Err(io::Error::from(ErrorKind::Other)),
            _ => &[],
        };
        let count = bytes.len().min(buf.len());
        buf[..count].copy_from_slice(&bytes[..count]);
        Ok(count)
    }
}

// The bytes of the next read, if it doesn't fail.
fn next_bytes(
    alloc: Global,
    input: &mut StandardInput<FailingReader>,
) -> Result<Option<Vec<u8>>, AllocError> {
    let mut piece = [0u8; 8];
    match input.read(&mut piece) {
        Ok(count) => Ok(Some(Vec::from_slice(alloc, &piece[..count])?)),
        Err(_) => Ok(None),
    }
}

#[test]
fn reads_give_all_bytes(rt: HostRuntime) -> Result<(), Fail> {
    let mut input = StandardInput::new(FailingReader { reads: 0 });
    let rows: [Option<&[u8]>; 4] = [Some(&[1, 2, 3, 4]), Some(&[5, 6, 7]), None, Some(&[])];
    for row in rows {
        let bytes = next_bytes(rt.alloc(), &mut input)?;
        assert!(rt; bytes.as_deref() == row);
    }
    Ok(())
}
