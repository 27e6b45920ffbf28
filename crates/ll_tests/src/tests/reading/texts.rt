//! Files of both formats: the worked ones, where they are cut, how deep a line nests, and how long a file is.

use ll_fixtures::TREE;
use ll_lines::Cause;
use ll_trace::Trace;
use ll_tree::Tree;
use std::alloc::{AllocError, Global};
use std::test::Fail;
use std::thread::Threads;

/// What a file is read as: a tree, or a trace by at most this many threads.
#[derive(Clone, Copy)]
pub(crate) enum Format {
    Tree,
    Trace(usize),
}

/// The line and the cause of a file's fault, or None if it reads.
pub(crate) fn fault_of<R: AllocGlobal + Threads + Sync>(
    rt: &R,
    format: Format,
    bytes: &[u8],
) -> Option<(u64, Cause)> {
    let read = match format {
        Format::Tree => Tree::read(rt.alloc(), bytes).err(),
        Format::Trace(workers) => Trace::read_by(rt, rt.alloc(), bytes, workers).err(),
    };
    match read {
        None => None,
        Some(fault) => Some((fault.line, fault.cause)),
    }
}

/// One record of each operation.
pub(crate) const EVERY: &str = "\
{\"op\":\"start\",\"pid\":10,\"nnp\":true}\n\
{\"op\":\"fork\",\"pid\":10,\"child\":11}\n\
{\"op\":\"exit\",\"pid\":11}\n\
{\"op\":\"nnp\",\"pid\":10}\n\
{\"op\":\"create\",\"pid\":10,\"rs\":3,\"fs\":[\"read_file\",\"write_file\"],\"net\":[\"bind_tcp\"]}\n\
{\"op\":\"add_path\",\"pid\":10,\"rs\":3,\"path\":\"/a\",\"fs\":[\"read_file\"]}\n\
{\"op\":\"add_port\",\"pid\":10,\"rs\":3,\"port\":65536,\"net\":[\"connect_tcp\",\"x\"]}\n\
{\"op\":\"close_rs\",\"pid\":10,\"rs\":3}\n\
{\"op\":\"restrict\",\"pid\":10,\"rs\":4}\n\
{\"op\":\"open\",\"pid\":10,\"path\":\"/a/f\",\"fd\":4,\"mode\":\"rw\",\"trunc\":true}\n\
{\"op\":\"adopt\",\"pid\":10,\"fd\":5,\"kind\":\"device\"}\n\
{\"op\":\"dup\",\"pid\":10,\"fd\":5,\"to\":6}\n\
{\"op\":\"close\",\"pid\":10,\"fd\":5}\n\
{\"op\":\"ftruncate\",\"pid\":10,\"fd\":4}\n\
{\"op\":\"truncate\",\"pid\":10,\"path\":\"/t\"}\n\
{\"op\":\"exec\",\"pid\":10,\"path\":\"/\"}\n\
{\"op\":\"mknod\",\"pid\":10,\"path\":\"/p\",\"kind\":\"fifo\"}\n\
{\"op\":\"mkdir\",\"pid\":10,\"path\":\"/d\"}\n\
{\"op\":\"symlink\",\"pid\":10,\"path\":\"/s\"}\n\
{\"op\":\"unlink\",\"pid\":10,\"path\":\"/u\"}\n\
{\"op\":\"rmdir\",\"pid\":10,\"path\":\"/r\"}\n\
{\"op\":\"rename\",\"pid\":10,\"from\":\"/f\",\"to\":\"/t\",\"exchange\":true}\n\
{\"op\":\"link\",\"pid\":10,\"from\":\"/f\",\"to\":\"/t\"}\n\
{\"op\":\"mount\",\"pid\":10}\n\
{\"op\":\"bind\",\"pid\":10,\"port\":0}\n\
{\"op\":\"connect\",\"pid\":10,\"port\":65535}\n\
{\"op\":\"ioctl\",\"pid\":10,\"fd\":4,\"driver\":true}\n";

/// The fault of a file that is cut somewhere: it reads where that is at the start of a line or behind a brace, and any
/// other cut spoils the last line.
fn fault_of_cut(bytes: &[u8]) -> Option<(u64, Cause)> {
    if matches!(bytes.last(), None | Some(b'\n' | b'}')) {
        return None;
    }
    let line_feeds = bytes.iter().filter(|byte| **byte == b'\n').count() as u64;
    Some((line_feeds + 1, Cause::Json))
}

#[test]
fn cut_anywhere(rt: HostRuntime) {
    for (format, text) in [(Format::Tree, TREE), (Format::Trace(1), EVERY)] {
        for end in 0..=text.len() {
            let bytes = &text.as_bytes()[..end];
            let is_met = fault_of(&rt, format, bytes) == fault_of_cut(bytes);
            assert!(rt; is_met, "cut after {end} bytes");
        }
    }
}

/// `front`, then `count` times `middle`, then `back`.
fn repeated(
    alloc: Global,
    front: &[u8],
    middle: &str,
    count: usize,
    back: &str,
) -> Result<Vec<u8>, AllocError> {
    let mut bytes = Vec::from_slice(alloc, front)?;
    for _ in 0..count {
        bytes.extend_from_slice(middle.as_bytes())?;
    }
    bytes.extend_from_slice(back.as_bytes())?;
    Ok(bytes)
}

/// The fault of a line with so many arrays inside one another, in a member that nobody asks for.
fn fault_of_arrays<R: AllocGlobal + Threads + Sync>(
    rt: &R,
    format: Format,
    front: &str,
    depth: usize,
) -> Result<Option<(u64, Cause)>, AllocError> {
    let open = repeated(rt.alloc(), front.as_bytes(), "[", depth, "")?;
    let nested = repeated(rt.alloc(), &open, "]", depth, "}")?;
    Ok(fault_of(rt, format, &nested))
}

/// Arrays are read to a depth of 126 in a member.
#[test]
fn nested_members(rt: HostRuntime) -> Result<(), Fail> {
    for (format, front) in [
        (Format::Tree, "{\"path\":\"/a\",\"kind\":\"dir\",\"x\":"),
        (Format::Trace(1), "{\"op\":\"start\",\"pid\":9,\"x\":"),
        (Format::Trace(1), "{\"op\":\"start\",\"pid\":9,\"fs\":"),
    ] {
        assert!(rt; fault_of_arrays(&rt, format, front, 126)?.is_none());
        let fault = fault_of_arrays(&rt, format, front, 127)?;
        assert_eq!(rt; fault, Some((1, Cause::Json)));
    }
    Ok(())
}

const START: &[u8] = b"{\"op\":\"start\",\"pid\":1}\n";

/// The fault of a trace with a path of 2,047 names of two bytes and this end.
fn fault_of_path<R: AllocGlobal + Threads + Sync>(
    rt: &R,
    end: &str,
) -> Result<Option<(u64, Cause)>, AllocError> {
    let exec = "{\"op\":\"exec\",\"pid\":1,\"path\":\"";
    let front = repeated(rt.alloc(), START, exec, 1, "")?;
    let long = repeated(rt.alloc(), &front, "/a", 2047, end)?;
    Ok(fault_of(rt, Format::Trace(1), &long))
}

/// A path has 4,096 bytes at most.
#[test]
fn longest_path_of_a_trace(rt: HostRuntime) -> Result<(), Fail> {
    assert!(rt; fault_of_path(&rt, "/b\"}")?.is_none());
    assert_eq!(rt; fault_of_path(&rt, "/bc\"}")?, Some((2, Cause::BadPath)));
    Ok(())
}

/// The fault of a file whose line of this number is the first too many.
fn too_many(line: u64) -> Option<(u64, Cause)> {
    Some((line, Cause::TooMany))
}

/// The fault of a trace with so many records behind the first.
fn fault_of_records<R: AllocGlobal + Threads + Sync>(
    rt: &R,
    count: usize,
) -> Result<Option<(u64, Cause)>, AllocError> {
    let long = repeated(rt.alloc(), START, "{\"op\":\"nnp\",\"pid\":1}\n", count, "")?;
    Ok(fault_of(rt, Format::Trace(1), &long))
}

/// A trace has 1,000,000 records at most.
#[test]
fn most_records_of_a_trace(rt: HostRuntime) -> Result<(), Fail> {
    assert!(rt; fault_of_records(&rt, 999_999)?.is_none());
    assert_eq!(rt; fault_of_records(&rt, 1_000_000)?, too_many(1_000_001));
    Ok(())
}

fn push_directory(file: &mut String, path: &str) -> Result<(), AllocError> {
    writeln!(file, "{{\"path\":\"{path}\",\"kind\":\"dir\"}}")
}

/// The fault of a tree whose directories lie in one another, the deepest with a path of 4,094 bytes and this end.
fn fault_of_deepest<R: AllocGlobal + Threads + Sync>(
    rt: &R,
    end: &str,
) -> Result<Option<(u64, Cause)>, AllocError> {
    let mut file = String::new(rt.alloc());
    let mut path = String::new(rt.alloc());
    for _ in 0..2_047 {
        path.push_str("/d")?;
        push_directory(&mut file, &path)?;
    }
    path.push_str(end)?;
    push_directory(&mut file, &path)?;
    Ok(fault_of(rt, Format::Tree, file.as_bytes()))
}

/// A path has 4,096 bytes at most.
#[test]
fn longest_path_of_a_tree(rt: HostRuntime) -> Result<(), Fail> {
    assert!(rt; fault_of_deepest(&rt, "/d")?.is_none());
    assert_eq!(rt;
        fault_of_deepest(&rt, "/dd")?,
        Some((2_048, Cause::BadPath))
    );
    Ok(())
}

/// The fault of a tree with so many objects beside the root.
fn fault_of_objects<R: AllocGlobal + Threads + Sync>(
    rt: &R,
    count: u32,
) -> Result<Option<(u64, Cause)>, AllocError> {
    let mut file = String::new(rt.alloc());
    for number in 0..count {
        push_directory(&mut file, &format!(in rt.alloc(); "/n{number}")?)?;
    }
    Ok(fault_of(rt, Format::Tree, file.as_bytes()))
}

/// A tree has 65,536 objects at most, the root included.
#[test]
fn most_objects_of_a_tree(rt: HostRuntime) -> Result<(), Fail> {
    assert!(rt; fault_of_objects(&rt, 65_535)?.is_none());
    assert_eq!(rt; fault_of_objects(&rt, 65_536)?, too_many(65_536));
    Ok(())
}

/// Whichever one request for memory is refused, reading answers a tree or a trace, or `Memory` for a line of the file,
/// and the same bytes are read again once there is memory: one refusal falls into one of three readings at most. What
/// is answered then is that of the file, by contract.
#[test]
fn refused_memory(rt: HostRuntime) {
    for (format, text, lines) in [(Format::Tree, TREE, 7), (Format::Trace(1), EVERY, 27)] {
        let mut refused = 0u32;
        for _ in 0..3 {
            if let Some((line, cause)) = fault_of(&rt, format, text.as_bytes()) {
                let is_one = cause == Cause::Memory && line >= 1 && line <= lines;
                assert!(rt; is_one, "{cause:?} at line {line}");
                refused = refused.saturating_add(1);
            }
        }
        assert!(rt; refused <= 1, "{refused} refusals");
    }
}
