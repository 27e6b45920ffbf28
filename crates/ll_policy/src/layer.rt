//! The layers of a policy.

ghost use Rattle.std.specs.Prelude.{◌≡◌, ◌-◌, length, position};
ghost use Rattle.std.specs.List.{list_any};

use ll_rights::{Fs, Net, RightSet};

/// A layer of a policy: what it handles, the rights that its rules grant on each object and on each port, by their
/// numbers, and its scopes.
#[derive(Drop)]
pub struct Layer {
    pub files: Fs,
    pub network: Net,
    pub on_objects: Vec<Fs>,
    pub on_ports: Vec<Net>,
    pub abstract_unix_socket: bool,
    pub signal: bool,
}

/// What a layer keeps a program from whatever its rules are.
#[derive(Clone, Copy, Debug, PartialEq, Eq)]
pub enum Restriction {
    /// Changes of what is mounted.
    Mounts,
    /// Connections to abstract UNIX sockets of processes outside.
    AbstractUnixSocket,
    /// Signals to processes outside.
    Signal,
}

ghost use Rattle.ll_policy.specs.Policies.{restricts, lost};

impl Layer {
    /// Whether the layer has a restriction.
    pub fn restricts(&self, restriction: Restriction) -> bool
        ensures { result ≡ restricts restriction self.now }
    {
        match restriction {
            Restriction::Mounts => !self.files.is_empty(),
            Restriction::AbstractUnixSocket => self.abstract_unix_socket,
            Restriction::Signal => self.signal,
        }
    }
}

/// Whether some layer has a restriction.
fn some_restricts(layers: &[Layer], restriction: Restriction) -> bool
    ensures { result ≡ list_any (restricts restriction) layers.now }
{
    layers.iter().any(|layer| layer.restricts(restriction))
}

/// The index of the first layer with a restriction.
fn first_that_restricts(layers: &[Layer], restriction: Restriction) -> Option<usize>
    ensures { result ≡ position (restricts restriction) layers.now }
{
    layers.iter().position(|layer| layer.restricts(restriction))
}

/// The index of the first old layer with a restriction that no new layer has.
#[tactic(auto, unfolding(crate::specs::Policies::lost))]
pub fn lost(restriction: Restriction, old: &[Layer], new: &[Layer]) -> Option<usize>
    ensures { result ≡ lost restriction old.now new.now }
{
    if some_restricts(new, restriction) {
        return None;
    }
    first_that_restricts(old, restriction)
}

/// How many layers more a process can stack under a new policy than under an old one.
pub fn spare_layers(old: &[Layer], new: &[Layer]) -> usize
    ensures { result ≡ length old.now - length new.now }
{
    old.len().saturating_sub(new.len())
}
