//! Tests of what is told behind the line of an end.

use detail_core::{Watch, tell_details};
use host_core::{Source, Status, Stream};
use std::alloc::Global;
use std::test::Fail;

/// What is told of an end of a command that read this input.
fn told(alloc: Global, args: &[&str], input: &[u8], status: Status) -> Result<String, Fail> {
    let watch = Watch::new(alloc, args);
    let mut room = [0; 256];
    let _count = watch.source(Stream::new(input)).read(&mut room)?;
    Ok(watch.details(alloc, args, status, None))
}

#[test]
fn the_word_that_is_not_understood_is_told(rt: HostRuntime) -> Result<(), Fail> {
    let args = ["halts", "-", "pack", "--kind", "records"];
    let input = b"clock 09:30:00.000000000\nclock 9:30:00\n";
    let text = told(rt.alloc(), &args, input, Status::BadText { line: 2 })?;
    assert!(rt; text.as_str().contains("word 2 is not understood: 9:30:00"));
    Ok(())
}

#[test]
fn lines_that_were_read_as_frames_are_told(rt: HostRuntime) -> Result<(), Fail> {
    let args = ["halts", "-", "replay"];
    let input = b"clock 09:30:00.000000000\n";
    let text = told(rt.alloc(), &args, input, Status::Truncated)?;
    assert!(rt; text.as_str().contains("pack makes frames of them"));
    Ok(())
}

#[test]
fn each_detail_stands_behind_two_blanks(rt: HostRuntime) -> Result<(), Fail> {
    let mut told = Vec::new(rt.alloc());
    tell_details(&mut Stream::new(&mut told), b"one\n\ntwo")?;
    assert!(rt; told.as_slice() == b"  one\n  two\n".as_slice());
    Ok(())
}
