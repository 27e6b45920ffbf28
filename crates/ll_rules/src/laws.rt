//! What the definitions say about small rulesets and layers over a small tree.
#![tactic(auto, unfolding(crate::specs::WorkedRules::checking))]

ghost use Rattle.std.specs.Prelude.{◌≡◌, [], ◌∷◌, Some, None, replicate};
ghost use Rattle.std.specs.List.{range_with_len};
ghost use Rattle.ll_rights.specs.declared.abi.Abi.TheVariants.{V1, V2, V3, V4, V5};
ghost use Rattle.ll_rights.specs.Rights as fs;
ghost use Rattle.ll_rights.specs.Rights.{execute, write_file, read_file, read_dir, remove_dir, remove_file, make_dir, make_reg, refer, truncate, ioctl_dev};
ghost use Rattle.ll_rights.specs.NetRights.{bind_tcp, connect_tcp};
ghost use Rattle.ll_tree.specs.WorkedTree.{worked_tree};
ghost use Rattle.ll_rules.specs.Checks.{refusing, refusing_port, refusing_mount};
ghost use Rattle.ll_rules.specs.Rulesets.{create_fault};
ghost use Rattle.ll_rules.specs.RuleFaults.{add_path_fault, add_port_fault};
ghost use Rattle.ll_rules.specs.WorkedRules.{a, b, a_f, b_g, dev_tty, number, dir_a, dir_a_s, dir_b, file_a_f, file_b_g, these, these_on_ports, layer, port_layer, renamed, linked, exchanged, answer, reading, two_rules, two_layers, serving, crossing};

use crate::{Errno, RuleFault, Verdict};
use ll_tree::Place;

/// The answers of versions of the interface to the creation of a ruleset.
pub fn worked_creations()
    ensures refer_too_early { create_fault V1 (these (refer ∷ [])) (these_on_ports [])
        ≡ Some Errno.Inval }
    ensures truncate_too_early { create_fault V2 (these (truncate ∷ [])) (these_on_ports [])
        ≡ Some Errno.Inval }
    ensures nothing { create_fault V2 (these []) (these_on_ports []) ≡ Some Errno.NoMsg }
    ensures network_too_early { create_fault V3 (these []) (these_on_ports (bind_tcp ∷ []))
        ≡ Some Errno.TooBig }
    ensures network_first { create_fault V3 (these (fs.other ∷ [])) (these_on_ports (bind_tcp ∷ []))
        ≡ Some Errno.TooBig }
    ensures unknown { create_fault V3 (these (fs.other ∷ [])) (these_on_ports [])
        ≡ Some Errno.Inval }
    ensures network { create_fault V4 (these []) (these_on_ports (bind_tcp ∷ [])) ≡ None }
    ensures ioctl_dev_too_early { create_fault V4 (these (ioctl_dev ∷ [])) (these_on_ports [])
        ≡ Some Errno.Inval }
    ensures ioctl_dev { create_fault V5 (these (ioctl_dev ∷ [])) (these_on_ports []) ≡ None }
{}

/// Why rules aren't added to a ruleset that handles reading, of files and of directories.
pub fn worked_rules_for_files()
    ensures nothing { add_path_fault worked_tree reading (Place.Node dir_a) (these [])
        ≡ Some (RuleFault.Errno Errno.NoMsg) }
    ensures unhandled { add_path_fault worked_tree reading (Place.Gap (number 0))
        (these (write_file ∷ [])) ≡ Some (RuleFault.Errno Errno.Inval) }
    ensures in_a_gap { add_path_fault worked_tree reading (Place.Gap (number 0))
        (these (read_file ∷ [])) ≡ Some RuleFault.Moot }
    ensures nowhere { add_path_fault worked_tree reading Place.Nowhere (these (read_file ∷ []))
        ≡ Some RuleFault.Moot }
    ensures on_a_file { add_path_fault worked_tree reading (Place.Node file_a_f)
        (these (read_dir ∷ [])) ≡ Some (RuleFault.Errno Errno.Inval) }
    ensures on_a_directory { add_path_fault worked_tree reading (Place.Node dir_a)
        (these (read_dir ∷ [])) ≡ None }
{}

/// Why rules aren't added to a ruleset that handles binding to ports, or one that doesn't.
pub fn worked_rules_for_ports()
    ensures nothing { add_port_fault V4 (port_layer (bind_tcp ∷ []) []) 80 (these_on_ports [])
        ≡ Some (RuleFault.Errno Errno.NoMsg) }
    ensures unhandled { add_port_fault V4 (port_layer (bind_tcp ∷ []) []) 80
        (these_on_ports (connect_tcp ∷ [])) ≡ Some (RuleFault.Errno Errno.Inval) }
    ensures no_port { add_port_fault V4 (port_layer (bind_tcp ∷ []) []) 65536
        (these_on_ports (bind_tcp ∷ [])) ≡ Some (RuleFault.Errno Errno.Inval) }
    ensures last_port { add_port_fault V4 (port_layer (bind_tcp ∷ []) []) 65535
        (these_on_ports (bind_tcp ∷ [])) ≡ None }
    ensures too_early { add_port_fault V3 (layer (read_file ∷ []) []) 80 (these_on_ports [])
        ≡ Some (RuleFault.Errno Errno.Inval) }
{}

/// The layers that refuse what is wanted on paths.
pub fn worked_paths()
    // Two rules on the way to an object grant together what neither grants alone.
    ensures granted_together { refusing (two_rules ∷ []) a_f (these (read_file ∷ write_file ∷ []))
        ≡ [] }
    ensures granted_elsewhere { refusing (two_rules ∷ []) b_g (these (read_file ∷ write_file ∷ []))
        ≡ 1 ∷ [] }
    // Each layer has to grant.
    ensures by_the_first { refusing two_layers a_f (these (read_file ∷ [])) ≡ 2 ∷ [] }
    ensures by_the_second { refusing two_layers b_g (these (read_file ∷ [])) ≡ 1 ∷ [] }
    ensures by_neither { refusing two_layers dev_tty (these (read_file ∷ [])) ≡ 1 ∷ 2 ∷ [] }
    // All layers that refuse are named.
    ensures sixteen { refusing (replicate 16 (layer (read_file ∷ []) [])) a_f
        (these (read_file ∷ [])) ≡ range_with_len 1 16 }
    // What isn't handled isn't refused.
    ensures unhandled { refusing (layer (read_file ∷ []) [] ∷ []) b_g (these (write_file ∷ []))
        ≡ [] }
{}

/// The layers that refuse what is wanted on ports, and changes of what is mounted.
pub fn worked_ports_and_mounts()
    ensures bound { refusing_port (serving ∷ []) 0 (these_on_ports (bind_tcp ∷ [])) ≡ [] }
    ensures no_rule { refusing_port (serving ∷ []) 80 (these_on_ports (bind_tcp ∷ [])) ≡ 1 ∷ [] }
    ensures connected { refusing_port (serving ∷ []) 443 (these_on_ports (connect_tcp ∷ [])) ≡ [] }
    ensures other_right { refusing_port (serving ∷ []) 443 (these_on_ports (bind_tcp ∷ []))
        ≡ 1 ∷ [] }
    ensures both_bound { refusing_port (serving ∷ []) 8080 (these_on_ports (bind_tcp ∷ [])) ≡ [] }
    ensures both_connected { refusing_port (serving ∷ []) 8080 (these_on_ports (connect_tcp ∷ []))
        ≡ [] }
    ensures port_zero { refusing_port
        (port_layer (bind_tcp ∷ connect_tcp ∷ []) ((443, connect_tcp ∷ []) ∷ []) ∷ []) 0
        (these_on_ports (bind_tcp ∷ [])) ≡ 1 ∷ [] }
    ensures no_mount { refusing_mount (port_layer (bind_tcp ∷ connect_tcp ∷ []) [] ∷ []) ≡ [] }
    ensures mount { refusing_mount
        (port_layer (bind_tcp ∷ connect_tcp ∷ []) [] ∷ layer (read_dir ∷ []) [] ∷ []) ≡ 2 ∷ [] }
{}

/// The answers of layers without the right to move between directories.
pub fn worked_moves_without_refer()
    ensures renamed_within { answer (layer (read_file ∷ []) []) (renamed file_a_f dir_a)
        ≡ Verdict.Passed }
    ensures renamed_out { answer (layer (read_file ∷ []) []) (renamed file_a_f dir_b)
        ≡ Verdict.Refused Errno.XDev (1 ∷ []) }
    ensures linked_out { answer (layer (read_file ∷ []) []) (linked file_a_f dir_b)
        ≡ Verdict.Refused Errno.XDev (1 ∷ []) }
    ensures linked_within { answer (layer (read_file ∷ []) []) (linked file_a_f dir_a)
        ≡ Verdict.Passed }
    ensures network_alone { answer (port_layer (bind_tcp ∷ []) []) (renamed file_a_f dir_b)
        ≡ Verdict.Passed }
    ensures network_alone_linked { answer (port_layer (bind_tcp ∷ []) []) (linked file_a_f dir_b)
        ≡ Verdict.Passed }
    // What is denied comes first.
    ensures denied_first { answer
        (layer (make_reg ∷ remove_file ∷ [])
        ((a, make_reg ∷ remove_file ∷ []) ∷ (b, remove_file ∷ []) ∷ [])) (renamed file_a_f dir_b)
        ≡ Verdict.Refused Errno.Acces (1 ∷ []) }
    ensures not_denied { answer
        (layer (make_reg ∷ remove_file ∷ []) ((a, make_reg ∷ remove_file ∷ [])
        ∷ (b, remove_file ∷ []) ∷ [])) (renamed file_a_f dir_a) ≡ Verdict.Passed }
    // A rename removes the old name, and a link doesn't.
    ensures removed { answer (layer (remove_file ∷ make_reg ∷ []) ((a, make_reg ∷ []) ∷ []))
        (renamed file_a_f dir_a) ≡ Verdict.Refused Errno.Acces (1 ∷ []) }
    ensures not_removed { answer (layer (remove_file ∷ make_reg ∷ []) ((a, make_reg ∷ []) ∷ []))
        (linked file_a_f dir_a) ≡ Verdict.Passed }
{}

/// The answers of a layer that grants moving between two directories, and execution in one of them.
pub fn worked_moves()
    ensures gains { answer (crossing []) (renamed file_a_f dir_b)
        ≡ Verdict.Refused Errno.XDev (1 ∷ []) }
    ensures loses { answer (crossing []) (renamed file_b_g dir_a) ≡ Verdict.Passed }
    ensures linked { answer (crossing []) (linked file_b_g dir_a) ≡ Verdict.Passed }
    ensures other_gains { answer (crossing []) (exchanged file_b_g file_a_f)
        ≡ Verdict.Refused Errno.XDev (1 ∷ []) }
    // With a rule on the moved object itself there is nothing to gain.
    ensures had { answer (crossing ((a_f, execute ∷ []) ∷ [])) (renamed file_a_f dir_b)
        ≡ Verdict.Passed }
    ensures had_loses { answer (crossing ((a_f, execute ∷ []) ∷ [])) (renamed file_b_g dir_a)
        ≡ Verdict.Passed }
    ensures had_linked { answer (crossing ((a_f, execute ∷ []) ∷ [])) (linked file_b_g dir_a)
        ≡ Verdict.Passed }
    ensures other_had { answer (crossing ((a_f, execute ∷ []) ∷ [])) (exchanged file_b_g file_a_f)
        ≡ Verdict.Passed }
    ensures not_made { answer
        (layer (refer ∷ make_reg ∷ remove_file ∷ execute ∷ [])
        ((a, refer ∷ make_reg ∷ remove_file ∷ []) ∷ (b, refer ∷ remove_file ∷ execute ∷ []) ∷ []))
        (renamed file_a_f dir_b) ≡ Verdict.Refused Errno.Acces (1 ∷ []) }
    // A directory gains what counts for directories, too.
    ensures directory_gains { answer
        (layer (refer ∷ make_dir ∷ remove_dir ∷ read_dir ∷ [])
        ((a, refer ∷ make_dir ∷ remove_dir ∷ []) ∷ (b, refer ∷ make_dir ∷ read_dir ∷ []) ∷ []))
        (renamed dir_a_s dir_b) ≡ Verdict.Refused Errno.XDev (1 ∷ []) }
    ensures device_right { answer
        (layer (refer ∷ make_reg ∷ remove_file ∷ ioctl_dev ∷ [])
        ((a, refer ∷ make_reg ∷ remove_file ∷ []) ∷ (b, refer ∷ make_reg ∷ ioctl_dev ∷ []) ∷ []))
        (renamed file_a_f dir_b) ≡ Verdict.Refused Errno.XDev (1 ∷ []) }
{}
