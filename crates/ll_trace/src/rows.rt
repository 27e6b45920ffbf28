//! Worked traces: each law is proved by computation, which reads the file as the
//! definitions do.

ghost use Rattle.std.specs.Prelude.{◌≡◌, All, codes};
ghost use Rattle.ll_lines.specs.Reading.{IsBad};
ghost use Rattle.ll_rights.specs.declared.abi.Abi.{Abi as Version};
ghost use Rattle.ll_rights.specs.Rights as files;
ghost use Rattle.ll_rights.specs.NetRights as network;
ghost use Rattle.ll_trace.specs.{Entries.trace_file, Records.IsTrace};
ghost use Rattle.ll_trace.specs.BestEffort.{at_best_effort};
ghost use Rattle.ll_trace.specs.WorkedTraces.{faulty, whole};

use crate::op::Op;
use ll_rights::Abi;

/// Files with a fault, their first faulty lines and the causes.
pub fn faulty_traces()
    ensures { All (λ row. IsBad trace_file row.0 row.1) faulty }
{}

/// Files that read, and their records.
pub fn whole_traces()
    ensures { All (λ row. IsTrace row.0 row.1) whole }
{}

/// Calls of a program that goes by its kernel's version (landlock(7), "VERSIONS").
#[tactic(auto, using(crate::proofs::Versions::other_names_stay), unfolding(crate::proofs::Versions::dropping_rights))]
pub fn calls_at_best_effort()
    ensures refer_is_of_2 { at_best_effort Abi.V1
        (Op.Create 3 (files.united (files.only files.execute) (files.only files.refer))
        network.no_right)
        ≡ Op.Create 3 (files.only files.execute) network.no_right }
    ensures ports_are_of_4 { at_best_effort Abi.V3
        (Op.Create 3 files.no_right (network.only network.bind_tcp)) ≡ Op.CreateEmpty 3 }
    ensures one_vocabulary_is_left { at_best_effort Abi.V3
        (Op.Create 3 (files.only files.execute) (network.only network.bind_tcp))
        ≡ Op.Create 3 (files.only files.execute) network.no_right }
    ensures no_right_named { at_best_effort Abi.V1 (Op.Create 3 files.no_right network.no_right)
        ≡ Op.Create 3 files.no_right network.no_right }
    ensures other_name { (abi : Version)
        → at_best_effort abi (Op.Create 3 (files.only files.other) network.no_right)
        ≡ Op.Create 3 (files.only files.other) network.no_right }
    ensures other_name_of_ports { (abi : Version)
        → at_best_effort abi (Op.Create 3 files.no_right (network.only network.other))
        ≡ Op.Create 3 files.no_right (network.only network.other) }
    ensures truncate_is_of_3 { at_best_effort Abi.V2
        (Op.AddPath 3 (codes "/a") (files.only files.truncate)) ≡ Op.LeaveOutPath (codes "/a") }
    ensures less_on_a_path { at_best_effort Abi.V2
        (Op.AddPath 3 (codes "/a")
        (files.united (files.only files.execute) (files.only files.truncate)))
        ≡ Op.AddPath 3 (codes "/a") (files.only files.execute) }
    ensures nothing_on_a_path { at_best_effort Abi.V1 (Op.AddPath 3 (codes "/a") files.no_right)
        ≡ Op.AddPath 3 (codes "/a") files.no_right }
    ensures bind_tcp_is_of_4 { at_best_effort Abi.V3
        (Op.AddPort 3 80 (network.only network.bind_tcp)) ≡ Op.LeaveOutPort }
    ensures nothing_on_a_port { at_best_effort Abi.V3 (Op.AddPort 3 80 network.no_right)
        ≡ Op.AddPort 3 80 network.no_right }
    ensures ioctl_dev_is_of_5 { at_best_effort Abi.V4
        (Op.Create 3 (files.only files.ioctl_dev) network.no_right) ≡ Op.CreateEmpty 3 }
    ensures all_is_of_5 { at_best_effort Abi.V5
        (Op.Create 3 (files.only files.ioctl_dev) network.no_right)
        ≡ Op.Create 3 (files.only files.ioctl_dev) network.no_right }
{}
