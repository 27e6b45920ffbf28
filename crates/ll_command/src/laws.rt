//! Laws on command lines, which follow from the definitions.

ghost use Rattle.std.specs.Prelude.{◌≡◌, ◌++◌, ◌∷◌, ◌↔◌, List, [], Some, IsSome, codes, option_map, true};
ghost use Rattle.clap.specs.declared.error.kind.ErrorKind.TheVariants as kind;
ghost use Rattle.ll_rights.specs.declared.abi.Abi.TheVariants.{V1, V4, V5};
ghost use Rattle.ll_report.specs.declared.options.{Format.TheVariants.Json, TheConstants.ALL_LINES};
ghost use Rattle.ll_trace.specs.declared.trace.Effort.TheVariants.{Best};
ghost use Rattle.ll_command.specs.Command.{Text, faults, newer_digit, plain_request, plainly, request_of};

/// What some command lines ask for, and what is wrong with others.
#[tactic(auto, unfolding(crate::proofs::CommandLine::reading))]
pub fn command_lines()
    // Without `--workers` and `--grain` there is one worker, and the grain is 64.
    ensures short { request_of
        (codes "landaudit" ∷ codes "--abi" ∷ codes "4" ∷ codes "t" ∷ codes "r" ∷ [])
        ≡ Some (plain_request V4 1 64 (codes "t") (codes "r")) }
    ensures long { request_of
        (codes "landaudit" ∷ codes "--abi=5" ∷ codes "t" ∷ codes "--workers" ∷ codes "64"
        ∷ codes "r" ∷ codes "--grain=0" ∷ [])
        ≡ Some (plain_request V5 64 0 (codes "t") (codes "r")) }
    ensures best_effort { option_map (λ asked. asked.options)
        (request_of (codes "landaudit" ∷ codes "--best-effort" ∷ codes "--abi"
        ∷ codes "1" ∷ codes "t" ∷ codes "r" ∷ []))
        ≡ Some (plainly Best V1) }
    ensures refused { option_map (λ asked. asked.options.shown)
        (request_of (codes "landaudit" ∷ codes "--abi" ∷ codes "4" ∷ codes "--refused"
        ∷ codes "t" ∷ codes "r" ∷ []))
        ≡ Some (record ALL_LINES { refused_alone = true }) }
    ensures explained { option_map (λ asked. asked.options.shown)
        (request_of (codes "landaudit" ∷ codes "--abi" ∷ codes "4" ∷ codes "t"
        ∷ codes "r" ∷ codes "--explain" ∷ []))
        ≡ Some (record ALL_LINES { explanations = true }) }
    ensures range { option_map (λ asked. asked.options.abis)
        (request_of (codes "landaudit" ∷ codes "--abi" ∷ codes "1-5" ∷ codes "t"
        ∷ codes "r" ∷ [])) ≡ Some (record { oldest = V1; newest = V5 }) }
    ensures differing { option_map (λ asked. asked.options.shown)
        (request_of (codes "landaudit" ∷ codes "--abi" ∷ codes "1-5" ∷ codes "--differs"
        ∷ codes "t" ∷ codes "r" ∷ []))
        ≡ Some (record ALL_LINES { differing_alone = true }) }
    ensures kinds { option_map (λ asked. asked.options.shown)
        (request_of (codes "landaudit" ∷ codes "--abi" ∷ codes "4" ∷ codes "--kinds" ∷ codes "t"
        ∷ codes "r" ∷ []))
        ≡ Some (record ALL_LINES { kinds = true }) }
    ensures json { option_map (λ asked. asked.options.format)
        (request_of (codes "landaudit" ∷ codes "--abi" ∷ codes "4" ∷ codes "t" ∷ codes "--json"
        ∷ codes "r" ∷ [])) ≡ Some Json }
    // The versions are one, or a range with the older first.
    ensures no_version_zero { faults (codes "landaudit" ∷ codes "--abi" ∷ codes "0-3" ∷ codes "t"
        ∷ codes "r" ∷ []) ≡ kind.ValueValidation ∷ [] }
    ensures no_falling_range { faults (codes "landaudit" ∷ codes "--abi" ∷ codes "5-1" ∷ codes "t"
        ∷ codes "r" ∷ []) ≡ kind.ValueValidation ∷ [] }
    ensures no_newer_version { faults
        (codes "landaudit" ∷ codes "--abi" ∷ (codes "1-" ++ newer_digit ∷ []) ∷ codes "t"
        ∷ codes "r" ∷ []) ≡ kind.ValueValidation ∷ [] }
    ensures no_open_range { faults (codes "landaudit" ∷ codes "--abi" ∷ codes "1-" ∷ codes "t"
        ∷ codes "r" ∷ []) ≡ kind.ValueValidation ∷ [] }
    ensures no_hyphen_alone { faults (codes "landaudit" ∷ codes "--abi" ∷ codes "-" ∷ codes "t"
        ∷ codes "r" ∷ []) ≡ kind.ValueValidation ∷ [] }
    ensures no_letters { faults (codes "landaudit" ∷ codes "--abi" ∷ codes "a-b" ∷ codes "t"
        ∷ codes "r" ∷ []) ≡ kind.ValueValidation ∷ [] }
    ensures no_second_range { faults (codes "landaudit" ∷ codes "--abi" ∷ codes "1" ∷ codes "--abi"
        ∷ codes "2" ∷ codes "t" ∷ codes "r" ∷ [])
        ≡ kind.ArgumentConflict ∷ [] }
    // One of the files may be standard input.
    ensures from_standard_input { option_map (λ asked. asked.trace)
        (request_of (codes "landaudit" ∷ codes "--abi" ∷ codes "4" ∷ codes "t"
        ∷ codes "-" ∷ [])) ≡ Some (codes "-") }
    ensures not_both { faults (codes "landaudit" ∷ codes "--abi" ∷ codes "4" ∷ codes "-" ∷ codes "-"
        ∷ []) ≡ kind.ValueValidation ∷ [] }
    // A flag has no value, and is given at most once.
    ensures no_value { faults (codes "landaudit" ∷ codes "--abi" ∷ codes "4"
        ∷ codes "--refused=true" ∷ codes "t" ∷ codes "r" ∷ [])
        ≡ kind.TooManyValues ∷ [] }
    ensures no_second { faults (codes "landaudit" ∷ codes "--abi" ∷ codes "4" ∷ codes "--refused"
        ∷ codes "--refused" ∷ codes "t"
        ∷ codes "r" ∷ []) ≡ kind.ArgumentConflict ∷ [] }
    ensures no_second_json { faults (codes "landaudit" ∷ codes "--json" ∷ codes "--abi" ∷ codes "4"
        ∷ codes "--json" ∷ codes "t"
        ∷ codes "r" ∷ []) ≡ kind.ArgumentConflict ∷ [] }
    ensures no_such_version { faults
        (codes "landaudit" ∷ codes "--abi" ∷ (newer_digit ∷ []) ∷ codes "t" ∷ codes "r" ∷ [])
        ≡ kind.ValueValidation ∷ [] }
    ensures no_worker { faults
        (codes "landaudit" ∷ codes "--abi" ∷ codes "4" ∷ codes "--workers" ∷ codes "0"
        ∷ codes "t" ∷ codes "r" ∷ []) ≡ kind.ValueValidation ∷ [] }
    ensures no_trace { faults (codes "landaudit" ∷ codes "--abi" ∷ codes "4" ∷ codes "t" ∷ [])
        ≡ kind.MissingRequiredArgument ∷ [] }
    ensures no_word { faults (codes "landaudit" ∷ []) ≡ kind.MissingRequiredArgument ∷ [] }
    ensures help { faults (codes "landaudit" ∷ codes "--help" ∷ []) ≡ kind.DisplayHelp ∷ [] }
    ensures version { faults (codes "landaudit" ∷ codes "--version" ∷ [])
        ≡ kind.DisplayVersion ∷ [] }
    ensures short_version { faults (codes "landaudit" ∷ codes "-V" ∷ [])
        ≡ kind.DisplayVersion ∷ [] }
    ensures help_last { faults (codes "landaudit" ∷ codes "--abi" ∷ codes "4" ∷ codes "t"
        ∷ codes "r" ∷ codes "--help" ∷ [])
        ≡ kind.DisplayHelp ∷ [] }
{}

/// A command line names a run exactly when it contains no fault.
#[tactic(auto, using(crate::proofs::Faultless::just_without_fault))]
pub fn words_without_a_fault_name_a_run()
    ensures { (words : List Text) → IsSome (request_of words) ↔ (faults words ≡ []) }
{}
