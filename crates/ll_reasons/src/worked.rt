//! What the definitions say of records of small traces.
#![tactic(auto, unfolding(crate::specs::WorkedExplanations::explaining))]

ghost use Rattle.std.specs.Prelude.{[], ◌∷◌, Some};
ghost use Rattle.ll_rights.specs.declared.abi.Abi.TheVariants.{V1, V2, V3, V4};
ghost use Rattle.ll_rules.specs.WorkedRules.{a_f};
ghost use Rattle.ll_semantics.specs.{WorkedWords.IsAnswered, WorkedLayers.rule_errors};
ghost use Rattle.ll_semantics.specs.WorkedCalls.{unreferred, gaining, truncating, port_zero, moot_calls};
ghost use Rattle.ll_reasons.specs.Conditions as conditions;
ghost use Rattle.ll_reasons.specs.Reasons as reasons;
ghost use Rattle.ll_reasons.specs.Explanations.{nothing, failure, mootness};
ghost use Rattle.ll_reasons.specs.WorkedExplanations.{IsExplained, refer_on_both, would_gain, truncate_on_both_layers, truncate_kept, bind_to, write_unhandled, connect_unhandled, directories_alone, nothing_there, best_effort, execute_unhandled, execute_on_the_second};

/// How records are explained that layers refuse: with the missing right, `refer` on both directories, what an object
/// would gain, and the opening of a descriptor, also after a fork and a duplicate.
pub fn worked_refusals()
    ensures allowed { IsExplained V1 unreferred 4 nothing }
    ensures referred { IsExplained V1 unreferred 5 refer_on_both }
    ensures gained { IsExplained V2 gaining 6 would_gain }
    ensures gained_back { IsExplained V2 gaining 9 would_gain }
    ensures missing { IsExplained V3 truncating 12 truncate_on_both_layers }
    ensures kept { IsExplained V3 truncating 7 truncate_kept }
    ensures kept_by_child { IsExplained V3 truncating 10 truncate_kept }
    ensures kept_by_duplicate { IsExplained V3 truncating 14 truncate_kept }
    ensures closed { IsExplained V4 port_zero 8 (bind_to 80) }
{}

/// How records are explained that fail with an error which no layer gives, or that the policy isn't asked about.
pub fn worked_reasons()
    ensures unheld { IsExplained V4 rule_errors 3 (failure (conditions.unheld 9)) }
    ensures rightless { IsExplained V4 rule_errors 4 (failure conditions.rightless) }
    ensures unhandled { IsExplained V4 rule_errors 5 write_unhandled }
    ensures absent { IsExplained V4 rule_errors 6 nothing_there }
    ensures directories { IsExplained V4 rule_errors 8 directories_alone }
    ensures ports_unhandled { IsExplained V4 rule_errors 11 connect_unhandled }
    ensures no_port { IsExplained V4 rule_errors 12 (failure (conditions.no_port 65536)) }
    ensures absent_above { IsExplained V4 moot_calls 2 nothing_there }
    ensures unmoved { IsExplained V4 moot_calls 7 (mootness (Some (reasons.unmoved a_f))) }
    ensures unopened { IsExplained V4 moot_calls 5 (mootness (Some (reasons.unopened 4))) }
{}

/// How records of a program at best effort are explained.
pub fn worked_best_effort()
    ensures answered { IsAnswered V3 best_effort }
    ensures port_left_out { IsExplained V3 best_effort 3 (mootness (Some reasons.unsupported)) }
    ensures held_already { IsExplained V3 best_effort 4 (mootness (Some (reasons.held_already 3))) }
    ensures handles_nothing { IsExplained V3 best_effort 5 execute_unhandled }
    ensures path_left_out { IsExplained V3 best_effort 6 (mootness (Some reasons.unsupported)) }
    ensures second_layer { IsExplained V3 best_effort 11 execute_on_the_second }
    ensures restrict_left_out { IsExplained V3 best_effort 14 (mootness (Some reasons.unenforced)) }
{}
