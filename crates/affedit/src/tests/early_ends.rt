//! Dialogues that end early: an input that is cut, and reads and puts that fail, at each place.

use crate::tests::rows::early_ends::ROWS;
use crate::tests::runner::{input_of, seen_of};
use std::alloc::{AllocError, Global};
use std::process::Abort;
use std::sync::Wait;
use std::test::Fail;
use std::thread::Threads;

/// How many bytes a read brings.
const PIECE: usize = 16;

fn block(place: usize) -> &'static str {
    ROWS.trim().split("\n\n").nth(place).unwrap_or("")
}

/// What is replied to the lines of a block that are whole in so many bytes of its input.
fn replies_within(alloc: Global, block: &str, bytes: usize) -> Result<String, AllocError> {
    let mut replies = String::new(alloc);
    let mut read = 0usize;
    for line in block.split('\n') {
        if let Some(line) = line.strip_prefix("> ") {
            read = read.saturating_add(line.len()).saturating_add(1);
        } else if let Some(reply) = line.strip_prefix("< ") {
            if read <= bytes {
                replies.push_str(reply)?;
                replies.push('\n')?;
            }
        }
    }
    Ok(replies)
}

/// A read that fails ends the run behind the replies to all lines that were whole in the bytes
/// before it.
fn assert_failing_read<R: Threads + Wait + Sync + Abort>(
    rt: &R,
    alloc: Global,
    block: &str,
    read: u64,
    before: usize,
) -> Result<(), AllocError> {
    let given = format!(in alloc; "{block}\nreads {read}")?;
    let mut wanted = replies_within(alloc, block, before)?;
    wanted.push_str("input\n")?;
    let input = input_of(alloc, block)?;
    let seen = seen_of(rt, alloc, &given, &input, PIECE)?;
    assert!(rt; seen.written() == wanted.as_bytes(), "read {read}");
    assert_eq!(rt; seen.status, 5, "read {read}");
    Ok(())
}

/// A read that would fail and does not come changes nothing.
fn assert_unread<R: Threads + Wait + Sync + Abort>(
    rt: &R,
    alloc: Global,
    block: &str,
    read: u64,
) -> Result<(), AllocError> {
    let given = format!(in alloc; "{block}\nreads {read}")?;
    let wanted = replies_within(alloc, block, usize::MAX)?;
    let input = input_of(alloc, block)?;
    let seen = seen_of(rt, alloc, &given, &input, PIECE)?;
    assert!(rt; seen.written() == wanted.as_bytes(), "read {read}");
    assert_eq!(rt; seen.status, 0, "read {read}");
    Ok(())
}

/// Each of the reads that bring a block's input fails in turn. Behind `quit` nothing is read.
fn assert_failing_reads<R: Threads + Wait + Sync + Abort>(
    rt: &R,
    alloc: Global,
    block: &str,
    reads: u64,
) -> Result<(), AllocError> {
    let mut before = 0usize;
    for read in 1..=reads {
        assert_failing_read(rt, alloc, block, read, before)?;
        before = before.saturating_add(PIECE);
    }
    assert_unread(rt, alloc, block, reads.saturating_add(1))
}

/// A put that fails ends the run, and what is written is a front of all replies, with the bytes
/// that it took. One that does not come changes nothing.
fn assert_failing_put<R: Threads + Wait + Sync + Abort>(
    rt: &R,
    alloc: Global,
    block: &str,
    put: u64,
    comes: bool,
) -> Result<(), AllocError> {
    let given = format!(in alloc; "{block}\nputs {put} 3")?;
    let replies = replies_within(alloc, block, usize::MAX)?;
    let input = input_of(alloc, block)?;
    let seen = seen_of(rt, alloc, &given, &input, PIECE)?;
    let written = seen.written();
    assert!(rt; replies.as_bytes().starts_with(written), "put {put}");
    assert_eq!(rt; written.len() < replies.len(), comes, "put {put}");
    assert_eq!(rt; seen.status, if comes { 6 } else { 0 }, "put {put}");
    Ok(())
}

/// Each of so many puts fails in turn.
fn assert_failing_puts<R: Threads + Wait + Sync + Abort>(
    rt: &R,
    alloc: Global,
    block: &str,
    puts: u64,
) -> Result<(), AllocError> {
    for put in 1..=puts.saturating_add(1) {
        assert_failing_put(rt, alloc, block, put, put <= puts)?;
    }
    Ok(())
}

/// An input that ends at a place is replied to line by line up to there, and ends well. What is
/// left of a line may be a line.
fn assert_cut<R: Threads + Wait + Sync + Abort>(
    rt: &R,
    alloc: Global,
    block: &str,
    input: &[u8],
) -> Result<(), AllocError> {
    let end = input.len();
    let replies = replies_within(alloc, block, end)?;
    let seen = seen_of(rt, alloc, block, input, usize::MAX)?;
    let Some(last) = seen.written().strip_prefix(replies.as_bytes()) else {
        assert!(rt; false, "cut at {end}");
        return Ok(());
    };
    assert!(rt; last.is_empty() || last.ends_with(b"\n"), "cut at {end}");
    assert_eq!(rt; seen.status, 0, "cut at {end}");
    Ok(())
}

fn assert_cuts<R: Threads + Wait + Sync + Abort>(
    rt: &R,
    alloc: Global,
    block: &str,
) -> Result<(), AllocError> {
    let input = input_of(alloc, block)?;
    for end in 0..input.len() {
        assert_cut(rt, alloc, block, input.get(..end).unwrap_or(&[]))?;
    }
    Ok(())
}

/// The first dialogue has 110 bytes with `quit`, which seven reads bring; the second 86, and the
/// third, of `pipe`, 34; both are read to their end.
#[test]
fn ends_where_the_outside_fails(rt: HostRuntime) -> Result<(), Fail> {
    let alloc = rt.alloc();
    assert_failing_reads(&rt, alloc, block(0), 7)?;
    assert_failing_reads(&rt, alloc, block(1), 7)?;
    assert_failing_reads(&rt, alloc, block(2), 4)?;
    assert_failing_puts(&rt, alloc, block(0), 6)?;
    assert_failing_puts(&rt, alloc, block(1), 4)?;
    assert_failing_puts(&rt, alloc, block(2), 2)?;
    assert_cuts(&rt, alloc, block(1))?;
    assert_cuts(&rt, alloc, block(2))?;
    Ok(())
}
