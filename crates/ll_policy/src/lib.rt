//! When the layers of one policy let nothing more pass than those of another, over objects and not over paths.
#![tactic(auto)]

mod calls;
mod comparing;
mod deciding;
mod each;
mod gaining;
mod granting;
mod laws;
mod layer;
mod moving;
mod regions;

pub use calls::{
    moves_alike_have_one_verdict, moves_made_of_others, moves_pass_by_ways_up,
    rights_are_refused_one_by_one,
};
pub use comparing::Compared;
pub use deciding::{ROOT, excess};
pub use gaining::Gain;
pub use granting::Granting;
pub use laws::{
    equal_policies_may_move_apart, layers_are_compared_one_by_one, no_move_passes_more,
    nothing_is_found_where_there_is_nothing_more, nothing_more_in_any_tree,
    ports_are_refused_one_by_one, regions_stand_for_their_objects, single_objects_are_enough,
    ways_up_are_chains,
};
pub use layer::{Layer, Restriction, lost, spare_layers};
pub use moving::{MovedTo, Movers};
pub use regions::{Passing, passing_on_objects, passing_on_ports};
