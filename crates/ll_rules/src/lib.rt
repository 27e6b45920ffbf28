//! Landlock's rulesets, the layers that they become, the domains that stack layers, and the checks of
//! rights by a domain.
#![tactic(auto)]

mod check;
mod climb;
mod cross_directory;
mod domain;
mod errno;
mod filter;
mod grants;
mod lanes;
mod laws;
mod layer_set;
mod moves;
mod ruleset;
mod sameness;

pub use check::{check_mount, check_path, check_path_by, check_path_counted, check_port};
pub use domain::{Domain, LayerId, MOST_LAYERS};
pub use errno::{Errno, Full, RuleFault};
pub use grants::{Grants, KnownLayers, grants_of, lacks_by};
pub use laws::{
    worked_creations, worked_moves, worked_moves_without_refer, worked_paths,
    worked_ports_and_mounts, worked_rules_for_files, worked_rules_for_ports,
};
pub use layer_set::LayerSet;
pub use moves::{
    Asked, How, Move, Target, Verdict, check_move, check_move_by, check_move_counted, entering,
    leaving,
};
pub use ruleset::{Layer, Ruleset};
pub use sameness::{same_answers, same_rules};
pub use std::alloc::AllocError as NoMemory;
