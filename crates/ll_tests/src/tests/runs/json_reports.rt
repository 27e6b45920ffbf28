//! Reports as JSON, as the documents say them.

use crate::tests::runs::ready::run;
use ll_fixtures::TREE;
use std::alloc::AllocGlobal;
use std::sync::Wait;
use std::test::Fail;
use std::thread::Threads;

/// A process with a layer, which has a rule for `/b`, and calls that are refused or moot.
const TRACE: &str = "\
{\"op\":\"start\",\"pid\":10,\"nnp\":true}\n\
{\"op\":\"create\",\"pid\":10,\"rs\":3,\"fs\":[\"execute\",\"refer\",\"truncate\"],\"net\":[\"bind_tcp\"]}\n\
{\"op\":\"add_path\",\"pid\":10,\"rs\":3,\"path\":\"/b\",\"fs\":[\"execute\"]}\n\
{\"op\":\"restrict\",\"pid\":10,\"rs\":3}\n\
{\"op\":\"open\",\"pid\":10,\"path\":\"/a/f\",\"fd\":4,\"mode\":\"w\"}\n\
{\"op\":\"ftruncate\",\"pid\":10,\"fd\":4}\n\
{\"op\":\"rename\",\"pid\":10,\"from\":\"/a/f\",\"to\":\"/b/h\"}\n\
{\"op\":\"bind\",\"pid\":10,\"port\":80}\n\
{\"op\":\"mount\",\"pid\":10}\n\
{\"op\":\"add_path\",\"pid\":10,\"rs\":3,\"path\":\"/a\",\"fs\":[\"write_file\"]}\n\
{\"op\":\"open\",\"pid\":10,\"path\":\"/q\\\"\\u0001\",\"fd\":5,\"mode\":\"r\"}\n\
{\"op\":\"exec\",\"pid\":10,\"path\":\"/b/g\"}\n";

/// The report under ABI 4, with explanations.
const EXPLAINED: &str = "\
{\"line\":1,\"pid\":10,\"op\":\"start\",\"answers\":[{\"abi\":[4,4],\"answer\":\"allowed\"}]}\n\
{\"line\":2,\"pid\":10,\"op\":\"create\",\"answers\":[{\"abi\":[4,4],\"answer\":\"allowed\"}]}\n\
{\"line\":3,\"pid\":10,\"op\":\"add_path\",\"answers\":[{\"abi\":[4,4],\"answer\":\"allowed\"}]}\n\
{\"line\":4,\"pid\":10,\"op\":\"restrict\",\"answers\":[{\"abi\":[4,4],\"answer\":\"allowed\"}]}\n\
{\"line\":5,\"pid\":10,\"op\":\"open\",\"answers\":[{\"abi\":[4,4],\"answer\":\"allowed\"}]}\n\
{\"line\":6,\"pid\":10,\"op\":\"ftruncate\",\"answers\":[{\"abi\":[4,4],\"answer\":\"refused\",\"error\":\"EACCES\",\
\"layers\":[{\"layer\":1,\"line\":4,\"objections\":[{\"missing\":[\"truncate\"],\"on\":\"/a/f\",\"opened\":5}]}]}]}\n\
{\"line\":7,\"pid\":10,\"op\":\"rename\",\"answers\":[{\"abi\":[4,4],\"answer\":\"refused\",\"error\":\"EXDEV\",\
\"layers\":[{\"layer\":1,\"line\":4,\"objections\":[{\"missing\":[\"refer\"],\"on\":\"/a\"},{\"missing\":[\"refer\"],\"on\":\"/b\"},\
{\"gains\":[\"execute\"],\"object\":\"/a/f\",\"in\":\"/b\"}]}]}]}\n\
{\"line\":8,\"pid\":10,\"op\":\"bind\",\"answers\":[{\"abi\":[4,4],\"answer\":\"refused\",\"error\":\"EACCES\",\
\"layers\":[{\"layer\":1,\"line\":4,\"objections\":[{\"closed\":[\"bind_tcp\"],\"port\":80}]}]}]}\n\
{\"line\":9,\"pid\":10,\"op\":\"mount\",\"answers\":[{\"abi\":[4,4],\"answer\":\"refused\",\"error\":\"EPERM\",\
\"layers\":[{\"layer\":1,\"line\":4,\"objections\":[{\"mounting\":true}]}]}]}\n\
{\"line\":10,\"pid\":10,\"op\":\"add_path\",\"answers\":[{\"abi\":[4,4],\"answer\":\"refused\",\"error\":\"EINVAL\",\
\"layers\":[],\"why\":{\"condition\":\"unhandled\",\"rights\":[\"write_file\"]}}]}\n\
{\"line\":11,\"pid\":10,\"op\":\"open\",\"answers\":[{\"abi\":[4,4],\"answer\":\"moot\",\
\"why\":{\"reason\":\"absent\",\"path\":\"/q\\\"\\u0001\"}}]}\n\
{\"line\":12,\"pid\":10,\"op\":\"exec\",\"answers\":[{\"abi\":[4,4],\"answer\":\"allowed\"}]}\n\
{\"totals\":[{\"abi\":4,\"records\":12,\"allowed\":6,\"refused\":5,\"moot\":1}],\"version\":\"0.2 (rattle-kit-13f logic dac8208d650f15bf)\"}\n";

/// What it shows of refused records without explanations.
const REFUSED: &str = "\
{\"line\":6,\"pid\":10,\"op\":\"ftruncate\",\"answers\":[{\"abi\":[4,4],\"answer\":\"refused\",\"error\":\"EACCES\",\"layers\":[{\"layer\":1}]}]}\n\
{\"line\":7,\"pid\":10,\"op\":\"rename\",\"answers\":[{\"abi\":[4,4],\"answer\":\"refused\",\"error\":\"EXDEV\",\"layers\":[{\"layer\":1}]}]}\n\
{\"line\":8,\"pid\":10,\"op\":\"bind\",\"answers\":[{\"abi\":[4,4],\"answer\":\"refused\",\"error\":\"EACCES\",\"layers\":[{\"layer\":1}]}]}\n\
{\"line\":9,\"pid\":10,\"op\":\"mount\",\"answers\":[{\"abi\":[4,4],\"answer\":\"refused\",\"error\":\"EPERM\",\"layers\":[{\"layer\":1}]}]}\n\
{\"line\":10,\"pid\":10,\"op\":\"add_path\",\"answers\":[{\"abi\":[4,4],\"answer\":\"refused\",\"error\":\"EINVAL\",\"layers\":[]}]}\n\
{\"totals\":[{\"abi\":4,\"records\":12,\"allowed\":6,\"refused\":5,\"moot\":1}],\"version\":\"0.2 (rattle-kit-13f logic dac8208d650f15bf)\"}\n";

/// Whether the report in JSON with an option more is this one.
fn is_reported<R: Threads + Wait + AllocGlobal + Sync>(
    rt: &R,
    option: &str,
    report: &str,
) -> Result<bool, Fail> {
    let files = [("t", TREE.as_bytes()), ("r", TRACE.as_bytes())];
    let words = ["landaudit", "--abi", "4", "t", "r", "--json", option];
    let ended = run(rt, words.as_slice(), files.as_slice())?;
    Ok(ended.is(1, report, ""))
}

#[test]
fn explanations_in_json(rt: HostRuntime) -> Result<(), Fail> {
    assert!(rt; is_reported(&rt, "--explain", EXPLAINED)?);
    Ok(())
}

#[test]
fn refused_records_in_json(rt: HostRuntime) -> Result<(), Fail> {
    assert!(rt; is_reported(&rt, "--refused", REFUSED)?);
    Ok(())
}
