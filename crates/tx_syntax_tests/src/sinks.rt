// A source and a sink in memory, with faults in mid-stream.
ghost use Rattle.std.specs.Prelude.{◌≤◌, IfOk};

use std::alloc::Global;
use std::test::Fail;
use tx_base::Memory;
use tx_outside::{Failed, MemSink, MemSource, Sink, Source, WriteFault, write_all};

// The next two bytes at most, through the bound alone.
fn read_two<I: Source>(source: &mut I, into: &mut [u8; 2]) -> Result<usize, Failed>
    ensures { IfOk result (λ n. n ≤ 2) }
{
    source.read(into)
}

// Whether the source returns these results, one after the other. What it gives is put into `got`.
fn gives<I: Source>(
    source: &mut I,
    wanted: &[Result<usize, Failed>],
    got: &mut Vec<u8>,
) -> Result<bool, Memory> {
    for answer in wanted {
        let mut piece = [0u8; 2];
        let count = read_two(source, &mut piece);
        if count != *answer {
            return Ok(false);
        }
        if let Ok(count) = count {
            got.extend_from_slice(&piece[..count])?;
        }
    }
    Ok(true)
}

/// The calls that fail, and the results of five calls on five bytes.
type SourceRow = (&'static [u64], [Result<usize, Failed>; 5]);

const SOURCES: &[SourceRow] = &[
    (&[], [Ok(2), Ok(2), Ok(1), Ok(0), Ok(0)]),
    (&[1], [Ok(2), Err(Failed), Ok(2), Ok(1), Ok(0)]),
    (&[3, 0], [Err(Failed), Ok(2), Ok(2), Err(Failed), Ok(1)]),
    (&[4], [Ok(2), Ok(2), Ok(1), Ok(0), Err(Failed)]),
];

fn is_given(alloc: Global, row: &SourceRow) -> Result<bool, Memory> {
    let bytes = Vec::from_slice(alloc, b"abcde")?;
    let mut source = MemSource::new(bytes, Vec::from_slice(alloc, row.0)?);
    let mut got = Vec::new(alloc);
    let all = gives(&mut source, &row.1, &mut got)?;
    Ok(all && got.as_slice() == b"abcde".as_slice())
}

fn first_misgiven(alloc: Global, rows: &[SourceRow]) -> Result<Option<usize>, Memory> {
    for (i, row) in rows.iter().enumerate() {
        if !is_given(alloc, row)? {
            return Ok(Some(i));
        }
    }
    Ok(None)
}

#[test]
fn source_gives_each_byte_once(rt: HostRuntime) -> Result<(), Fail> {
    assert_eq!(rt; first_misgiven(rt.alloc(), SOURCES)?, None);
    Ok(())
}

/// The room of a sink and the calls that fail, the result of writing five bytes, and what is then written.
type SinkRow = (usize, &'static [u64], Result<(), WriteFault>, &'static [u8]);

const SINKS: &[SinkRow] = &[
    (0, &[], Err(WriteFault::Failed), b""),
    (1, &[], Err(WriteFault::Failed), b"h"),
    (4, &[], Err(WriteFault::Failed), b"hell"),
    (5, &[], Ok(()), b"hello"),
    (9, &[1], Ok(()), b"hello"),
    (9, &[0], Err(WriteFault::Failed), b""),
    (4, &[1], Err(WriteFault::Failed), b"hell"),
];

fn is_taken(alloc: Global, row: &SinkRow) -> Result<bool, Memory> {
    let mut sink = MemSink::new(alloc, row.0, Vec::from_slice(alloc, row.1)?)?;
    let answer = write_all(&mut sink, b"hello");
    Ok(answer == row.2 && sink.written() == row.3)
}

fn first_mistaken(alloc: Global, rows: &[SinkRow]) -> Result<Option<usize>, Memory> {
    for (i, row) in rows.iter().enumerate() {
        if !is_taken(alloc, row)? {
            return Ok(Some(i));
        }
    }
    Ok(None)
}

#[test]
fn sink_takes_what_it_has_room_for(rt: HostRuntime) -> Result<(), Fail> {
    assert_eq!(rt; first_mistaken(rt.alloc(), SINKS)?, None);
    Ok(())
}

// Whether a sink with room for four bytes, which fails at its second call, takes pieces one after the other as far as
// there is room, and nothing of an empty one.
fn goes_on<O: Sink>(sink: &mut O) -> bool {
    sink.write(b"ab") == Ok(2)
        && sink.write(b"cd") == Err(Failed)
        && sink.write(b"cde") == Ok(2)
        && sink.write(b"e") == Err(Failed)
        && write_all(sink, b"") == Ok(())
}

#[test]
fn sink_fails_in_mid_stream(rt: HostRuntime) -> Result<(), Fail> {
    let failing = Vec::from_slice(rt.alloc(), &[1])?;
    let mut sink = MemSink::new(rt.alloc(), 4, failing)?;
    let good = goes_on(&mut sink);
    assert!(rt; good && sink.written() == b"abcd".as_slice());
    Ok(())
}
