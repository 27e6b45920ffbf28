//! What the definitions say of small traces over a small tree.
#![tactic(auto, unfolding(crate::specs::WorkedWords::judging))]

ghost use Rattle.ll_rights.specs.declared.abi.Abi.TheVariants.{V1, V2, V3, V4, V5};
ghost use Rattle.ll_semantics.specs.WorkedWords.{IsAnswered};
ghost use Rattle.ll_semantics.specs.WorkedLayers.{confined, granted_together, each_layer, refer_unknown, truncate_unknown, ports_unknown, ports_known, rule_errors, port_rules_unknown, restricting, sixteen_layers, frozen_layers, shared_ruleset, late_rule, started_again, three_processes, twelve_processes};
ghost use Rattle.ll_semantics.specs.WorkedCalls.{path_requests, moot_calls, truncating, driver_commands, device_descriptors, ioctl_dev_unknown, ports_and_mounts, port_zero, unreferred, ports_alone, gaining, not_gaining, denied_and_gaining, denied_first, link_removes_nothing, directory_gaining, device_right_gaining, makes_do};

/// What processes are answered that confine themselves.
pub fn worked_confinements()
    ensures confined { IsAnswered V4 confined }
    ensures granted_together { IsAnswered V3 granted_together }
    ensures each_layer { IsAnswered V4 each_layer }
    ensures restricting { IsAnswered V4 restricting }
    ensures sixteen_layers { IsAnswered V4 sixteen_layers }
    ensures frozen_layers { IsAnswered V4 frozen_layers }
    ensures shared_ruleset { IsAnswered V4 shared_ruleset }
    ensures late_rule { IsAnswered V4 late_rule }
{}

/// What is answered where rulesets are created and changed.
pub fn worked_rulesets()
    ensures refer_unknown { IsAnswered V1 refer_unknown }
    ensures truncate_unknown { IsAnswered V2 truncate_unknown }
    ensures ports_unknown { IsAnswered V3 ports_unknown }
    ensures ports_known { IsAnswered V4 ports_known }
    ensures rule_errors { IsAnswered V4 rule_errors }
    ensures port_rules_unknown { IsAnswered V3 port_rules_unknown }
    ensures ioctl_dev_unknown { IsAnswered V4 ioctl_dev_unknown }
    ensures makes_do { IsAnswered V3 makes_do }
{}

/// What several processes are answered, one started by another or not.
pub fn worked_processes()
    ensures started_again { IsAnswered V4 started_again }
    ensures three_processes { IsAnswered V4 three_processes }
    ensures twelve_processes { IsAnswered V4 twelve_processes }
{}

/// What calls on the file tree are answered.
pub fn worked_requests()
    ensures path_requests { IsAnswered V3 path_requests }
    ensures moot_calls { IsAnswered V4 moot_calls }
{}

/// What calls on open descriptors are answered.
pub fn worked_descriptors()
    ensures truncating { IsAnswered V3 truncating }
    ensures driver_commands { IsAnswered V5 driver_commands }
    ensures device_descriptors { IsAnswered V5 device_descriptors }
{}

/// What calls on ports are answered, and changes of what is mounted.
pub fn worked_ports()
    ensures ports_and_mounts { IsAnswered V4 ports_and_mounts }
    ensures port_zero { IsAnswered V4 port_zero }
{}

/// What renames and links are answered.
pub fn worked_moves()
    ensures unreferred_v1 { IsAnswered V1 unreferred }
    ensures unreferred_v2 { IsAnswered V2 unreferred }
    ensures ports_alone { IsAnswered V4 ports_alone }
    ensures gaining { IsAnswered V2 gaining }
    ensures not_gaining { IsAnswered V2 not_gaining }
    ensures denied_and_gaining { IsAnswered V2 denied_and_gaining }
    ensures denied_first { IsAnswered V2 denied_first }
    ensures link_removes_nothing { IsAnswered V2 link_removes_nothing }
    ensures directory_gaining { IsAnswered V2 directory_gaining }
    ensures device_right_gaining { IsAnswered V5 device_right_gaining }
{}
