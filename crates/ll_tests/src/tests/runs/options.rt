//! Reports of which a part is shown, explanations over a range of versions, and reports as JSON.

use crate::tests::runs::ready::{TRACE, run};
use ll_fixtures::TREE;
use std::test::Fail;

const REFUSED_ALONE: &str = "\
7 10 open refused EACCES 1
total 8 allowed 7 refused 1 moot 0
";

/// A program that handles `truncate`, which came with ABI 3: before it its ruleset can't be made.
const RIGHTS_OF_3: &str = "\
{\"op\":\"start\",\"pid\":10,\"nnp\":true}
{\"op\":\"create\",\"pid\":10,\"rs\":3,\"fs\":[\"read_file\",\"truncate\"]}
{\"op\":\"restrict\",\"pid\":10,\"rs\":3}
{\"op\":\"truncate\",\"pid\":10,\"path\":\"/a/f\"}
{\"op\":\"exit\",\"pid\":10}
";

const DIFFERING_EXPLAINED: &str = "\
2 10 create 1-2 refused EINVAL - 3-4 allowed
    abi 1:
    ABI 1 does not know truncate
    abi 2:
    ABI 2 does not know truncate
3 10 restrict 1-2 refused EBADF - 3-4 allowed
    abi 1-2:
    ruleset 3 is not held
4 10 truncate 1-2 allowed 3-4 refused EACCES 1
    abi 3-4:
    layer 1 (line 3): truncate on /a/f
total 5 abi 1 allowed 3 refused 2 moot 0
total 5 abi 2 allowed 3 refused 2 moot 0
total 5 abi 3 allowed 4 refused 1 moot 0
total 5 abi 4 allowed 4 refused 1 moot 0
";

const REFUSED_AT_BEST_EFFORT: &str = "\
4 10 truncate 2 allowed 3 refused EACCES 1
total 5 abi 2 allowed 5 refused 0 moot 0
total 5 abi 3 allowed 4 refused 1 moot 0
";

const REFUSED_IN_JSON: &str = "\
{\"line\":7,\"pid\":10,\"op\":\"open\",\"answers\":[{\"abi\":[4,4],\"answer\":\"refused\",\"error\":\"EACCES\",\"layers\":[{\"layer\":1}]}]}\n\
{\"totals\":[{\"abi\":4,\"records\":8,\"allowed\":7,\"refused\":1,\"moot\":0}],\"version\":\"0.2 (rattle-kit-13f logic dac8208d650f15bf)\"}\n";

const DIFFERING_IN_JSON: &str = "\
{\"line\":2,\"pid\":10,\"op\":\"create\",\"answers\":[{\"abi\":[1,1],\"answer\":\"refused\",\"error\":\"EINVAL\",\"layers\":[],\"why\":{\"condition\":\"unknown\",\"abi\":1,\"rights\":[\"truncate\"]}},{\"abi\":[2,2],\"answer\":\"refused\",\"error\":\"EINVAL\",\"layers\":[],\"why\":{\"condition\":\"unknown\",\"abi\":2,\"rights\":[\"truncate\"]}},{\"abi\":[3,4],\"answer\":\"allowed\"}]}\n\
{\"line\":3,\"pid\":10,\"op\":\"restrict\",\"answers\":[{\"abi\":[1,2],\"answer\":\"refused\",\"error\":\"EBADF\",\"layers\":[],\"why\":{\"condition\":\"unheld\",\"rs\":3}},{\"abi\":[3,4],\"answer\":\"allowed\"}]}\n\
{\"line\":4,\"pid\":10,\"op\":\"truncate\",\"answers\":[{\"abi\":[1,2],\"answer\":\"allowed\"},{\"abi\":[3,4],\"answer\":\"refused\",\"error\":\"EACCES\",\"layers\":[{\"layer\":1,\"line\":3,\"objections\":[{\"missing\":[\"truncate\"],\"on\":\"/a/f\"}]}]}]}\n\
{\"totals\":[{\"abi\":1,\"records\":5,\"allowed\":3,\"refused\":2,\"moot\":0},{\"abi\":2,\"records\":5,\"allowed\":3,\"refused\":2,\"moot\":0},{\"abi\":3,\"records\":5,\"allowed\":4,\"refused\":1,\"moot\":0},{\"abi\":4,\"records\":5,\"allowed\":4,\"refused\":1,\"moot\":0}],\"version\":\"0.2 (rattle-kit-13f logic dac8208d650f15bf)\"}\n";

#[test]
fn a_part_of_the_report_is_shown(rt: HostRuntime) -> Result<(), Fail> {
    let cases: [(&[&str], &str, &str); 5] = [
        (
            ["landaudit", "--abi", "4", "t", "r", "--refused"].as_slice(),
            TRACE,
            REFUSED_ALONE,
        ),
        (
            [
                "landaudit",
                "--abi",
                "1-4",
                "t",
                "r",
                "--differs",
                "--explain",
            ]
            .as_slice(),
            RIGHTS_OF_3,
            DIFFERING_EXPLAINED,
        ),
        (
            [
                "landaudit",
                "--abi",
                "2-3",
                "t",
                "r",
                "--best-effort",
                "--refused",
            ]
            .as_slice(),
            RIGHTS_OF_3,
            REFUSED_AT_BEST_EFFORT,
        ),
        (
            ["landaudit", "--abi", "4", "t", "r", "--json", "--refused"].as_slice(),
            TRACE,
            REFUSED_IN_JSON,
        ),
        (
            [
                "landaudit",
                "--abi",
                "1-4",
                "t",
                "r",
                "--json",
                "--differs",
                "--explain",
            ]
            .as_slice(),
            RIGHTS_OF_3,
            DIFFERING_IN_JSON,
        ),
    ];
    for (words, trace, report) in cases {
        let files = [("t", TREE.as_bytes()), ("r", trace.as_bytes())];
        let ended = run(&rt, words, files.as_slice())?;
        assert!(rt; ended.is(1, report, ""), "{report}");
    }
    Ok(())
}
