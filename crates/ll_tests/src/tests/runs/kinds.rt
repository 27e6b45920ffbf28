//! Reports by kind.

use crate::tests::runs::ready::run;
use ll_fixtures::TREE;
use std::test::Fail;

/// Two processes, each with a layer of its own, which are refused the same calls.
const TWO_LAYERS: &str = "\
{\"op\":\"start\",\"pid\":10,\"nnp\":true}
{\"op\":\"create\",\"pid\":10,\"rs\":3,\"fs\":[\"read_file\"]}
{\"op\":\"add_path\",\"pid\":10,\"rs\":3,\"path\":\"/a\",\"fs\":[\"read_file\"]}
{\"op\":\"restrict\",\"pid\":10,\"rs\":3}
{\"op\":\"start\",\"pid\":11,\"nnp\":true}
{\"op\":\"create\",\"pid\":11,\"rs\":3,\"fs\":[\"read_file\"]}
{\"op\":\"restrict\",\"pid\":11,\"rs\":3}
{\"op\":\"open\",\"pid\":10,\"path\":\"/b/g\",\"fd\":4,\"mode\":\"r\"}
{\"op\":\"open\",\"pid\":11,\"path\":\"/b/g\",\"fd\":4,\"mode\":\"r\"}
{\"op\":\"open\",\"pid\":10,\"path\":\"/b/g\",\"fd\":5,\"mode\":\"r\"}
{\"op\":\"rename\",\"pid\":10,\"from\":\"/a/f\",\"to\":\"/b/h\"}
{\"op\":\"connect\",\"pid\":10,\"port\":80}
{\"op\":\"connect\",\"pid\":11,\"port\":80}
{\"op\":\"mkdir\",\"pid\":10,\"path\":\"/a/q\\\"\"}
";

const ALL: &str = "\
2 1 start allowed
2 2 create allowed
1 3 add_path /a allowed
2 4 restrict allowed
3 8 open /b/g refused EACCES 1
1 11 rename /a/f /b/h refused EXDEV 1
2 12 connect 80 allowed
1 14 mkdir /a/q\\\" allowed
total 14 allowed 10 refused 4 moot 0
";

/// Records that other layers refuse are of other kinds, once that is explained.
const REFUSED_EXPLAINED: &str = "\
2 8 open /b/g refused EACCES 1
    layer 1 (line 4): read_file on /b/g
1 9 open /b/g refused EACCES 1
    layer 1 (line 7): read_file on /b/g
1 11 rename /a/f /b/h refused EXDEV 1
    layer 1 (line 4): refer on /a; refer on /b
total 14 allowed 10 refused 4 moot 0
";

const ALL_IN_JSON: &str = "\
{\"records\":2,\"line\":1,\"op\":\"start\",\"answers\":[{\"abi\":[4,4],\"answer\":\"allowed\"}]}\n\
{\"records\":2,\"line\":2,\"op\":\"create\",\"answers\":[{\"abi\":[4,4],\"answer\":\"allowed\"}]}\n\
{\"records\":1,\"line\":3,\"op\":\"add_path\",\"paths\":[\"/a\"],\"answers\":[{\"abi\":[4,4],\"answer\":\"allowed\"}]}\n\
{\"records\":2,\"line\":4,\"op\":\"restrict\",\"answers\":[{\"abi\":[4,4],\"answer\":\"allowed\"}]}\n\
{\"records\":3,\"line\":8,\"op\":\"open\",\"paths\":[\"/b/g\"],\"answers\":[{\"abi\":[4,4],\"answer\":\"refused\",\"error\":\"EACCES\",\"layers\":[{\"layer\":1}]}]}\n\
{\"records\":1,\"line\":11,\"op\":\"rename\",\"paths\":[\"/a/f\",\"/b/h\"],\"answers\":[{\"abi\":[4,4],\"answer\":\"refused\",\"error\":\"EXDEV\",\"layers\":[{\"layer\":1}]}]}\n\
{\"records\":2,\"line\":12,\"op\":\"connect\",\"port\":80,\"answers\":[{\"abi\":[4,4],\"answer\":\"allowed\"}]}\n\
{\"records\":1,\"line\":14,\"op\":\"mkdir\",\"paths\":[\"/a/q\\\"\"],\"answers\":[{\"abi\":[4,4],\"answer\":\"allowed\"}]}\n\
{\"totals\":[{\"abi\":4,\"records\":14,\"allowed\":10,\"refused\":4,\"moot\":0}],\"version\":\"0.2 (rattle-kit-13f logic dac8208d650f15bf)\"}\n";

/// A program that handles `truncate`, which came with ABI 3, and asks for it twice.
const TRUNCATED_TWICE: &str = "\
{\"op\":\"start\",\"pid\":10,\"nnp\":true}
{\"op\":\"create\",\"pid\":10,\"rs\":3,\"fs\":[\"read_file\",\"truncate\"]}
{\"op\":\"restrict\",\"pid\":10,\"rs\":3}
{\"op\":\"truncate\",\"pid\":10,\"path\":\"/a/f\"}
{\"op\":\"truncate\",\"pid\":10,\"path\":\"/a/f\"}
";

const DIFFERING: &str = "\
1 2 create 1-2 refused EINVAL - 3 allowed
1 3 restrict 1-2 refused EBADF - 3 allowed
2 4 truncate /a/f 1-2 allowed 3 refused EACCES 1
total 5 abi 1 allowed 3 refused 2 moot 0
total 5 abi 2 allowed 3 refused 2 moot 0
total 5 abi 3 allowed 3 refused 2 moot 0
";

const DIFFERING_IN_JSON: &str = "\
{\"records\":1,\"line\":2,\"op\":\"create\",\"answers\":[{\"abi\":[2,2],\"answer\":\"refused\",\"error\":\"EINVAL\",\"layers\":[],\"why\":{\"condition\":\"unknown\",\"abi\":2,\"rights\":[\"truncate\"]}},{\"abi\":[3,3],\"answer\":\"allowed\"}]}\n\
{\"records\":1,\"line\":3,\"op\":\"restrict\",\"answers\":[{\"abi\":[2,2],\"answer\":\"refused\",\"error\":\"EBADF\",\"layers\":[],\"why\":{\"condition\":\"unheld\",\"rs\":3}},{\"abi\":[3,3],\"answer\":\"allowed\"}]}\n\
{\"records\":2,\"line\":4,\"op\":\"truncate\",\"paths\":[\"/a/f\"],\"answers\":[{\"abi\":[2,2],\"answer\":\"allowed\"},{\"abi\":[3,3],\"answer\":\"refused\",\"error\":\"EACCES\",\"layers\":[{\"layer\":1,\"line\":3,\"objections\":[{\"missing\":[\"truncate\"],\"on\":\"/a/f\"}]}]}]}\n\
{\"totals\":[{\"abi\":2,\"records\":5,\"allowed\":3,\"refused\":2,\"moot\":0},{\"abi\":3,\"records\":5,\"allowed\":3,\"refused\":2,\"moot\":0}],\"version\":\"0.2 (rattle-kit-13f logic dac8208d650f15bf)\"}\n";

#[test]
fn reports_by_kind(rt: HostRuntime) -> Result<(), Fail> {
    let cases: [(&[&str], &str, &str); 5] = [
        (["--abi", "4"].as_slice(), TWO_LAYERS, ALL),
        (
            ["--abi", "4", "--explain", "--refused"].as_slice(),
            TWO_LAYERS,
            REFUSED_EXPLAINED,
        ),
        (["--abi", "4", "--json"].as_slice(), TWO_LAYERS, ALL_IN_JSON),
        (
            ["--abi", "1-3", "--differs"].as_slice(),
            TRUNCATED_TWICE,
            DIFFERING,
        ),
        (
            ["--abi", "2-3", "--differs", "--explain", "--json"].as_slice(),
            TRUNCATED_TWICE,
            DIFFERING_IN_JSON,
        ),
    ];
    for (flags, trace, report) in cases {
        let mut words = vec![in rt.alloc(); "landaudit", "t", "r", "--kinds"]?;
        words.extend_from_slice(flags)?;
        let files = [("t", TREE.as_bytes()), ("r", trace.as_bytes())];
        let ended = run(&rt, words.as_slice(), files.as_slice())?;
        assert!(rt; ended.is(1, report, ""), "{report}");
    }
    Ok(())
}
