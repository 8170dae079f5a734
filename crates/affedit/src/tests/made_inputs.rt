//! Runs over inputs that no row writes down, and the check that has no input.

use crate::tests::runner::{files_of, seen_of, words_of};
use command_line::run_check;
use outside_doubles::MemSink;
use std::alloc::{AllocError, Global};
use std::process::Abort;
use std::sync::Wait;
use std::test::Fail;
use std::thread::Threads;

/// As many paragraphs as there may be, and then one more; where one is taken out, there is room for
/// another.
fn full_input(alloc: Global) -> Result<String, AllocError> {
    let mut input = String::new(alloc);
    for _ in 0..20_000u32 {
        input.push_str("ins 1\n")?;
    }
    input.push_str("ins 1 x\nins 20001 x\nins 20002 x\ndel 20000\nins 20000 x\n")?;
    Ok(input)
}

fn full_replies(alloc: Global) -> Result<String, AllocError> {
    let mut replies = String::new(alloc);
    for number in 1..20_001u32 {
        write!(replies, "ok {number}\n")?;
    }
    replies.push_str("no Full 20000\nno Full 20000\nno Place 20000\nok 20001\nok 20002\n")?;
    Ok(replies)
}

fn assert_full<R: Threads + Wait + Sync + Abort>(rt: &R, alloc: Global) -> Result<(), AllocError> {
    let input = full_input(alloc)?;
    let replies = full_replies(alloc)?;
    let seen = seen_of(rt, alloc, ">", input.as_bytes(), usize::MAX)?;
    assert!(rt; seen.written() == replies.as_bytes());
    assert_eq!(rt; seen.status, 0);
    Ok(())
}

#[test]
fn holds_no_more_than_is_allowed(rt: HostRuntime) -> Result<(), Fail> {
    assert_full(&rt, rt.alloc())?;
    Ok(())
}

/// What does without an input does not know the words of `edit` and `pipe`.
#[test]
fn a_check_alone_reads_no_input(rt: HostRuntime) -> Result<(), Fail> {
    let alloc = rt.alloc();
    for given in [">", ">\nwords pipe a.aff a.dic"] {
        let words = words_of(alloc, given)?;
        let mut files = files_of(alloc, given)?;
        let mut out = MemSink::new(alloc, Vec::new(alloc), 0);
        let status = run_check(&rt, alloc, &words, &mut files, &mut out);
        assert_eq!(rt; out.written(), b"affedit: words\n".as_slice());
        assert_eq!(rt; status, 2);
    }
    Ok(())
}
