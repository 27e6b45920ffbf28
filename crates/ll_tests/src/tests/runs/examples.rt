//! The examples in the documentation of the audit.

use ll_audit::{ALL_LINES, AbiRange, Cut, Effort, Format, Idle, Options, audit, audit_with};
use ll_rights::Abi;
use std::test::Fail;

/// The tree of the examples.
const TREE: &[u8] = b"{\"path\":\"/etc\",\"kind\":\"dir\"}\n";

/// The trace of the examples: a process that may make no directory makes one.
const TRACE: &[u8] = b"\
{\"op\":\"start\",\"pid\":10,\"nnp\":true}
{\"op\":\"create\",\"pid\":10,\"rs\":3,\"fs\":[\"make_dir\",\"truncate\"]}
{\"op\":\"restrict\",\"pid\":10,\"rs\":3}
{\"op\":\"mkdir\",\"pid\":10,\"path\":\"/etc/new\"}
";

#[test]
fn an_audit(rt: HostRuntime) -> Result<(), Fail> {
    let cut = Cut::Grain(0);
    let report = audit(&rt, rt.alloc(), TREE, TRACE, Abi::V4, 1, cut, &Idle)?;
    assert_eq!(rt; report.refused, 1);
    Ok(())
}

#[test]
fn an_audit_at_best_effort(rt: HostRuntime) -> Result<(), Fail> {
    let options = Options {
        abis: AbiRange::only(Abi::V2),
        effort: Effort::Best,
        shown: ALL_LINES,
        format: Format::Json,
    };
    let cut = Cut::Grain(0);
    let report = audit_with(&rt, rt.alloc(), TREE, TRACE, &options, 1, cut, &Idle)?;
    assert_eq!(rt; report.refused, 1);
    Ok(())
}
