//! The parts of a policy.

use ll_rights::{Fs, Kind, Net};

/// Rights as a policy lists them: those that it names outright, and those that groups stand for.
#[derive(Clone, Copy, Debug, PartialEq, Eq)]
pub struct Access<S> {
    pub named: S,
    pub grouped: S,
}

/// The object that a rule is on.
#[derive(Clone, Copy, Debug, PartialEq, Eq)]
pub enum Parent {
    /// An object, by its number among those that are listed.
    There { object: u32, kind: Kind },
    /// There is no object at the path that the policy names.
    Missing,
}

/// A rule on an object and on all under it. A policy that names several parents has a rule for each.
#[derive(Clone, Copy, Debug, PartialEq, Eq)]
pub struct PathRule {
    pub allowed: Access<Fs>,
    pub parent: Parent,
    /// Whether it belongs to a group of rules that the policy includes.
    pub included: bool,
}

/// A rule on a TCP port.
#[derive(Clone, Copy, Debug, PartialEq, Eq)]
pub struct PortRule {
    pub allowed: Access<Net>,
    pub port: u64,
}

/// What a layer keeps a program from doing to processes outside, since version 6 of the interface.
#[derive(Clone, Copy, Debug, PartialEq, Eq)]
pub struct Scopes {
    pub abstract_unix_socket: bool,
    pub signal: bool,
}

/// A layer: what it handles, its rules, and its scopes.
#[derive(Drop)]
pub struct Layer {
    pub handled_files: Access<Fs>,
    pub handled_network: Access<Net>,
    pub path_rules: Vec<PathRule>,
    pub port_rules: Vec<PortRule>,
    pub scopes: Scopes,
}
