//! A comparison of two policies, as a line says it.

ghost use Rattle.std.specs.Prelude.{◌≡◌, ◌+◌, IfOk, codes, map, false};
ghost use Rattle.serde_json.specs.View.{view};
ghost use Rattle.ll_lines.specs.Readers.{Gives, Reads};
ghost use Rattle.ll_policy.specs.Chains.{is_file_in};
ghost use Rattle.ll_values.specs.Lists.{list_at, place_in};
ghost use Rattle.ll_comparison.specs.Comparisons.{LayerSeen, scopes_in, files_at, port_count_at, asked_at, asked_in, layer_in, layers_at, comparison_in, comparison_on, seen, all_seen};

use crate::rules::granted_by_rules;
use ll_lines::Cause;
use ll_policy::Layer;
use ll_rights::Fs;
use ll_values::{
    Sight, all_in, flag_of, fs_of, items_of, list_of, net_of, number_of, place_in_list,
    truth_in_list, value_of,
};
use serde_json::Value;
use std::alloc::Global;

/// The most ports that are numbered: a port has 16 bits.
pub const MOST_PORTS: u64 = 65_536;

/// Which rights for files are asked about.
#[derive(Clone, Copy)]
pub struct Asked {
    /// In which regions these pass.
    pub regions: Fs,
    /// Which objects let these pass together under the new policy alone.
    pub objects: Fs,
    /// Which objects do so by themselves.
    pub single: Fs,
    /// What gains these under the new policy alone.
    pub gains: Fs,
    /// Moves between regions of objects that need one of these to be made.
    pub moves: Fs,
}

/// Two policies that are to be compared.
#[derive(Drop)]
pub struct Comparison {
    /// Which objects are files, by their numbers. Object 0 is the root.
    pub files: Vec<bool>,
    /// What each object after the root is in, which comes before it.
    pub parents: Vec<usize>,
    /// How many ports are numbered.
    pub ports: usize,
    /// What is asked.
    pub asked: Asked,
    /// The layers of the policy that is compared with.
    pub old: Vec<Layer>,
    /// The layers of the policy that may let more pass.
    pub new: Vec<Layer>,
}

/// Which objects are files.
#[tactic(auto, unfolding(crate::specs::Comparisons::files_at))]
fn files_of(alloc: Global, value: &Value) -> Result<Vec<bool>, Cause>
    ensures files { Gives (λ files. files.items) result (files_at (view value.now)) }
    ensures root { IfOk result (λ files. is_file_in files.items 0 ≡ false) }
{
    let files = list_of(alloc, value, "files", |_, is_file| truth_in_list(is_file))?;
    if files.first().copied().unwrap_or(true) {
        return Err(Cause::Field);
    }
    Ok(files)
}

/// What each object after the root is in, which comes before it.
fn parents_of(alloc: Global, value: &Value) -> Result<Vec<usize>, Cause>
    ensures { Gives (λ parents. parents.items) result
        (list_at (codes "parents") (λ index. place_in (index + 1)) (view value.now)) }
{
    list_of(alloc, value, "parents", |others, parent| {
        place_in_list(others.len() + 1, parent)
    })
}

/// How many ports are numbered.
#[tactic(auto, unfolding(crate::specs::Comparisons::port_count_at))]
fn port_count_of(value: &Value) -> Result<usize, Cause>
    ensures { Reads (λ count. count) result (port_count_at (view value.now)) }
{
    let count = number_of(value, "ports")?;
    if count > MOST_PORTS {
        return Err(Cause::Field);
    }
    Ok(count as usize)
}

/// The rights for files that a part of the answer is about; the member has to be there, so that none is forgotten.
#[tactic(auto, unfolding(crate::specs::Comparisons::asked_at))]
fn asked_about(value: &Value, name: &str) -> Result<Fs, Cause>
    ensures { Reads (λ set. set) result (asked_at name.now (view value.now)) }
{
    value.get(name).ok_or(Cause::Field)?;
    fs_of(value, name)
}

/// Which rights for files are asked about.
#[tactic(auto, unfolding(crate::specs::Comparisons::asked_in))]
fn asked_of(value: &Value) -> Result<Asked, Cause>
    ensures { Reads (λ asked. asked) result (asked_in (view value.now)) }
{
    let regions = asked_about(value, "regions")?;
    let objects = asked_about(value, "objects")?;
    let single = asked_about(value, "single")?;
    let gains = asked_about(value, "gains")?;
    let moves = asked_about(value, "moves")?;
    Ok(Asked {
        regions,
        objects,
        single,
        gains,
        moves,
    })
}

/// Which scopes a layer has: that of abstract UNIX sockets, and that of signals.
#[tactic(auto, unfolding(crate::specs::Comparisons::scopes_in))]
fn scopes_of(value: &Value) -> Result<(bool, bool), Cause>
    ensures { Reads (λ scopes. scopes) result (scopes_in (view value.now)) }
{
    let sockets = flag_of(value, "abstract_unix_socket")?;
    let signals = flag_of(value, "signal")?;
    Ok((sockets, signals))
}

/// The layer that a value describes, with rules on so many objects and ports.
#[tactic(auto, unfolding(crate::specs::Comparisons::layer_in))]
fn layer_of(alloc: Global, objects: usize, ports: usize, value: &Value) -> Result<Layer, Cause>
    ensures { Gives seen result (layer_in objects ports (view value.now)) }
{
    let files = fs_of(value, "fs")?;
    let network = net_of(value)?;
    let on_objects = granted_by_rules(alloc, objects, "object_rules", "objects", value)?;
    let on_ports = granted_by_rules(alloc, ports, "port_rules", "ports", value)?;
    let (abstract_unix_socket, signal) = scopes_of(value)?;
    Ok(Layer {
        files,
        network,
        on_objects,
        on_ports,
        abstract_unix_socket,
        signal,
    })
}

/// Layers, as contracts see them.
struct SeenLayers;

impl Sight<Layer> for SeenLayers {
    ghost Seen = { LayerSeen };

    ghost seen = { seen };
}

/// The layers of a policy.
#[tactic(auto, unfolding(crate::specs::Comparisons::layers_at))]
fn layers_of(
    alloc: Global,
    name: &str,
    objects: usize,
    ports: usize,
    value: &Value,
) -> Result<Vec<Layer>, Cause>
    ensures { Gives (λ layers. map seen layers.items) result
        (layers_at name.now objects ports (view value.now)) }
{
    let values = items_of(value, name)?;
    all_in::<SeenLayers, _, _>(alloc, values, |_, layer| {
        layer_of(alloc, objects, ports, layer)
    })
}

/// The comparison that a value describes.
#[tactic(auto, unfolding(crate::specs::Comparisons::comparison_in))]
fn comparison_of(alloc: Global, value: &Value) -> Result<Comparison, Cause>
    ensures comparison { Gives all_seen result (comparison_in (view value.now)) }
    ensures root { IfOk result (λ comparison. is_file_in comparison.files.items 0 ≡ false) }
{
    let files = files_of(alloc, value)?;
    let parents = parents_of(alloc, value)?;
    let ports = port_count_of(value)?;
    let asked = asked_of(value)?;
    let old = layers_of(alloc, "old", files.len(), ports, value)?;
    let new = layers_of(alloc, "new", files.len(), ports, value)?;
    Ok(Comparison {
        files,
        parents,
        ports,
        asked,
        old,
        new,
    })
}

impl Comparison {
    /// Reads the comparison on a line: one JSON object.
    #[tactic(auto, unfolding(crate::specs::Comparisons::comparison_on))]
    pub fn read(alloc: Global, line: &[u8]) -> Result<Comparison, Cause>
        ensures comparison { Gives all_seen result (comparison_on line.now) }
        ensures root { IfOk result (λ comparison. is_file_in comparison.files.items 0 ≡ false) }
    {
        let value = value_of(alloc, line)?;
        comparison_of(alloc, &value)
    }
}
