//! What holds by the definitions alone.

ghost use Rattle.std.specs.Prelude.{◌≡◌, ◌++◌, ◌≤◌, ℕ, List, Ok, length};
ghost use Rattle.std.specs.List.{flat_map};
ghost use Rattle.ll_rights.specs.{declared.abi.Abi.Abi as Version, declared.net.TheConstants.LARGEST_PORT};
ghost use Rattle.ll_rights.specs.Abis.{number_of};
ghost use Rattle.ll_lines.specs.{Lines.Line, declared.path.TheConstants.LONGEST_PATH};
ghost use Rattle.ll_tree.specs.{declared.tree.TheConstants.MOST_NODES, Trees.Entry};
ghost use Rattle.ll_rules.specs.declared.domain.TheConstants.{MOST_LAYERS};
ghost use Rattle.ll_trace.specs.declared.reader.TheConstants.{MOST_PROCESSES, MOST_RECORDS};
ghost use Rattle.ll_trace.specs.{declared.op.Record.Record, Entries.entry_at, Records.entry_of};
ghost use Rattle.ll_semantics.specs.declared.answer.Answer.{Answer};
ghost use Rattle.ll_report.specs.{Lines.line_of, Rows.shown_text, declared.report.Report.Report as Made, Made.told_by};
ghost use Rattle.ll_report.specs.declared.options.Options.{Options as Asked};
ghost use Rattle.ll_rights.specs.AbiRanges.{IsRising, versions_in};
ghost use Rattle.ll_audit.specs.{declared.source.TheConstants.LARGEST_FILE, Audits.IsReport};
ghost use Rattle.ll_audit.specs.ShownReports.{IsReportWith, IsTextReport, findings, plain_options, total_at};
ghost use Rattle.ll_trace.specs.SaidByName.{SaysOperation};

/// The word by which the report tells of a record's operation is the one that the record's line of the
/// trace says.
pub fn the_report_has_the_words_of_the_trace()
    ensures { (line : Line) (r : Record) (answer : Answer) → entry_at line ≡ Ok (entry_of r)
        → SaysOperation line (line_of r answer).op }
{}

/// Two reports on the same bytes under the same version are the same bytes, whatever workers judged
/// and wherever the work was cut, and tell of as many refusals.
pub fn the_same_bytes_have_one_report()
    ensures bytes { (abi : Version) (tree trace : List ℕ) (report other : Made)
        → IsReport abi tree trace report → IsReport abi tree trace other
        → report.bytes.items ≡ other.bytes.items }
    ensures refused { (abi : Version) (tree trace : List ℕ) (report other : Made)
        → IsReport abi tree trace report → IsReport abi tree trace other
        → report.refused ≡ other.refused }
{}

/// `audit_with` answers by plain options what `audit` answers, and nothing else.
pub fn plain_options_ask_for_the_report()
    ensures leads { (abi : Version) (tree trace : List ℕ) (report : Made)
        → IsReportWith (plain_options abi) tree trace (told_by report)
        → IsReport abi tree trace report }
    ensures back { (abi : Version) (tree trace : List ℕ) (report : Made)
        → IsReport abi tree trace report
        → IsReportWith (plain_options abi) tree trace (told_by report) }
{}

/// The report as text ends with one total for each version of the range, the oldest first, under its own number if
/// there are several. There is at least one.
pub fn reports_have_a_total_for_each_version()
    ensures totals { (options : Asked) (tree : List Entry) (records : List Record) (report : Made)
        → IsTextReport options tree records (told_by report)
        → report.bytes.items ≡ shown_text options.shown (number_of options.abis.oldest)
        (findings options tree records) records
        ++ flat_map (total_at options tree records) (versions_in options.abis) }
    ensures at_least_one { (options : Asked) → IsRising options.abis
        → 1 ≤ length (versions_in options.abis) }
{}

/// The limits of what is read, as docs/FORMATS.md has them, and the most layers of a domain. A definition
/// cites a limit by its name, so this alone says which number that is.
pub fn limits_of_reading()
    ensures file { LARGEST_FILE ≡ 1073741824 }
    ensures port { LARGEST_PORT ≡ 65535 }
    ensures path { LONGEST_PATH ≡ 4096 }
    ensures nodes { MOST_NODES ≡ 65536 }
    ensures records { MOST_RECORDS ≡ 1000000 }
    ensures processes { MOST_PROCESSES ≡ 65536 }
    ensures layers { MOST_LAYERS ≡ 16 }
{}
