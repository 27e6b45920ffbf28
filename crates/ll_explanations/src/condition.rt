//! Why a call fails by no layer, as a value.

ghost use Rattle.std.specs.Prelude.{◌≡◌, ◌&&◌, List, false, if◌then◌else◌, not, option_and_then, option_map, slice_get};
ghost use Rattle.std.specs.FinMap.{get};
ghost use Rattle.ll_rights.specs.CodeRights.{net_right};
ghost use Rattle.ll_rights.specs.Rights as files;
ghost use Rattle.ll_rights.specs.NetRights as network;
ghost use Rattle.ll_trace.specs.declared.{op.Op.Op, op.Record.Record as OneRecord};
ghost use Rattle.ll_trace.specs.Borrowed.{is_of_rights};
ghost use Rattle.ll_reasons.specs.Conditions as conditions;
ghost use Rattle.ll_reasons.specs.Conditions.{handled, handled_on_ports};
ghost use Rattle.ll_reasons.specs.Origins.{Origins};
ghost use Rattle.ll_origins.specs.TraceOrigins.{Follows};
ghost use Rattle.ll_explanations.specs.Meanings.{condition_in};
ghost use Rattle.ll_explanations.specs.{Meant.text_named, declared.why.Which.TheVariants.First};

use crate::missing::{Test, passing};
use ll_origins::ProcessOrigins;
use ll_process::Case;
use ll_rights::{Abi, Fs, Net, NetRight, RightSet};
use ll_rules::Errno;
use ll_trace::{Call, Op, Seen};

/// Why a call fails by no layer. Each variant stands for the condition of the same name in the definitions.
#[derive(Clone, Copy, PartialEq, Eq)]
pub enum Condition {
    /// The version doesn't know these rights.
    Unknown(Abi, Fs),
    /// The version has no rules for ports.
    Portless(Abi),
    /// No right is named.
    Rightless,
    /// The process holds no ruleset under this number.
    Unheld(u64),
    /// The ruleset doesn't handle these rights.
    Unhandled(Fs),
    UnhandledOnPorts(Net),
    /// These rights are for directories, and the path of the call is that of something else.
    OnlyForDirectories(Fs),
    /// A port has 16 bits.
    NoPort(u64),
    /// The process could gain privileges and has none.
    Unprivileged,
    /// The process has as many layers as there can be.
    Full,
    /// None of these.
    Other,
}

/// The rights that a set has and another hasn't.
fn beyond(rights: Fs, whole: Fs) -> Fs
    ensures { (right : files.FsRight)
        → files.has result right ≡ (files.has rights right && not (files.has whole right)) }
{
    passing(Test::Beyond { rights, whole })
}

/// A right for ports, where a set has it and another hasn't; else none.
fn if_beyond(rights: Net, whole: Net, right: NetRight) -> Net
    ensures { result ≡ (if network.has rights (net_right right)
        && not (network.has whole (net_right right)) then network.only (net_right right)
        else network.no_right) }
{
    if rights.has(right) && !whole.has(right) {
        right.set()
    } else {
        Net::NONE
    }
}

/// The rights for ports that a set has and another hasn't.
#[tactic(auto, using(crate::proofs::Beyond::ports_beyond))]
fn beyond_on_ports(rights: Net, whole: Net) -> Net
    ensures { (right : network.NetRight)
        → network.has result right ≡ (network.has rights right && not (network.has whole right)) }
{
    let bind = if_beyond(rights, whole, NetRight::BindTcp);
    let connect = if_beyond(rights, whole, NetRight::ConnectTcp);
    let other = if_beyond(rights, whole, NetRight::Other);
    bind.union(connect).union(other)
}

/// The call of the record that created the ruleset which a number of a process names.
fn creation<'t>(case: &Case<'t>, trail: &ProcessOrigins, rs: u64) -> Option<Seen<'t>>
    ensures { result ≡ option_map (λ r. r.op)
        (option_and_then (slice_get case.now.records) (get trail.now.rulesets rs)) }
{
    let index = *trail.rulesets.get(rs)?;
    case.op(index as usize)
}

/// The rights for files and those for ports that a ruleset handles which a call creates.
#[tactic(auto, unfolding(ll_trace::specs::Borrowed::meant, ll_trace::specs::Borrowed::is_of_rights))]
fn handled_by(seen: &Seen<'_>) -> (Fs, Net)
    ensures files { result.0 ≡ conditions.handled_by seen.now }
    ensures ports { result.1 ≡ conditions.handled_on_ports_by seen.now }
{
    match seen.call() {
        Call::Create { fs, net, .. } => (fs, net),
        Call::CreateEmpty { .. } => (Fs::NONE, Net::NONE),
        Call::AddPath { .. } => (Fs::NONE, Net::NONE),
        Call::AddPort { .. } => (Fs::NONE, Net::NONE),
        Call::LeaveOutPath { .. } => (Fs::NONE, Net::NONE),
        Call::LeaveOutPort => (Fs::NONE, Net::NONE),
        Call::Other(_) => (Fs::NONE, Net::NONE),
    }
}

/// The rights for files and those for ports that a ruleset of a process handles.
#[tactic(auto, unfolding(ll_reasons::specs::Conditions::handled, ll_reasons::specs::Conditions::handled_on_ports))]
fn handled(case: &Case<'_>, trail: &ProcessOrigins, rs: u64) -> (Fs, Net)
    ensures files { (o : Origins) → Follows trail.now o
        → result.0 ≡ handled case.now.records o rs }
    ensures ports { (o : Origins) → Follows trail.now o
        → result.1 ≡ handled_on_ports case.now.records o rs }
{
    match creation(case, trail, rs) {
        Some(seen) => handled_by(&seen),
        None => (Fs::NONE, Net::NONE),
    }
}

/// Why a rule for files is invalid in a ruleset that handles `whole`.
#[tactic(auto, unfolding(crate::specs::Meanings::condition_in))]
fn invalid_on_path(fs: Fs, whole: Fs) -> Condition
    ensures { (op : Op)
        → condition_in op result ≡ conditions.invalid_on_path (text_named op First) fs whole }
{
    let unhandled = beyond(fs, whole);
    if unhandled.is_empty() {
        Condition::OnlyForDirectories(beyond(fs, Fs::FILE))
    } else {
        Condition::Unhandled(unhandled)
    }
}

/// Why a version with ports takes no rule for a port in a ruleset that handles `whole`.
#[tactic(auto, unfolding(crate::specs::Meanings::condition_in))]
fn invalid_port(port: u64, net: Net, whole: Net) -> Condition
    ensures { (op : Op) → condition_in op result
        ≡ (if network.is_within net whole then conditions.no_port port
        else conditions.unhandled_on_ports (conditions.port_rights_beyond net whole)) }
{
    let unhandled = beyond_on_ports(net, whole);
    if unhandled.is_empty() {
        Condition::NoPort(port)
    } else {
        Condition::UnhandledOnPorts(unhandled)
    }
}

/// Why a rule for a port is invalid in a ruleset that handles `whole`.
#[tactic(auto, unfolding(crate::specs::Meanings::condition_in))]
fn invalid_on_port(abi: Abi, port: u64, net: Net, whole: Net) -> Condition
    ensures { (op : Op)
        → condition_in op result ≡ conditions.invalid_on_port abi port net whole }
{
    if abi.number() < 4 {
        Condition::Portless(abi)
    } else {
        invalid_port(port, net, whole)
    }
}

/// Which rights a version doesn't know.
#[tactic(auto, unfolding(crate::specs::Meanings::condition_in))]
fn unknown(abi: Abi, fs: Fs) -> Condition
    ensures { (op : Op)
        → condition_in op result ≡ conditions.unknown abi (conditions.unknown_rights abi fs) }
{
    Condition::Unknown(abi, beyond(fs, abi.fs()))
}

/// The condition of an error that a `create` fails with.
#[tactic(auto, unfolding(crate::specs::Meanings::failing))]
fn of_create(abi: Abi, fs: Fs, error: Errno) -> Condition
    ensures { (op : Op) → condition_in op result ≡ conditions.of_create abi fs error }
{
    match error {
        Errno::TooBig => Condition::Portless(abi),
        Errno::Inval => unknown(abi, fs),
        Errno::NoMsg => Condition::Rightless,
        _ => Condition::Other,
    }
}

/// The condition of an error that an `add_path` fails with, in a ruleset that handles `whole`.
#[tactic(auto, unfolding(crate::specs::Meanings::failing))]
fn of_add_path(rs: u64, fs: Fs, whole: Fs, error: Errno) -> Condition
    ensures { (op : Op) → condition_in op result
        ≡ conditions.of_add_path rs (text_named op First) fs whole error }
{
    match error {
        Errno::BadFd => Condition::Unheld(rs),
        Errno::NoMsg => Condition::Rightless,
        Errno::Inval => invalid_on_path(fs, whole),
        _ => Condition::Other,
    }
}

/// The condition of an error that an `add_port` fails with, in a ruleset that handles `whole`.
#[tactic(auto, unfolding(crate::specs::Meanings::failing))]
fn of_add_port(abi: Abi, rs: u64, port: u64, net: Net, whole: Net, error: Errno) -> Condition
    ensures { (op : Op) → condition_in op result
        ≡ conditions.of_add_port abi rs port net whole error }
{
    match error {
        Errno::BadFd => Condition::Unheld(rs),
        Errno::NoMsg => Condition::Rightless,
        Errno::Inval => invalid_on_port(abi, port, net, whole),
        _ => Condition::Other,
    }
}

/// The condition of an error that a `restrict` fails with.
#[tactic(auto, unfolding(crate::specs::Meanings::failing))]
fn of_restrict(rs: u64, error: Errno) -> Condition
    ensures { (op : Op) → condition_in op result ≡ conditions.of_restrict rs error }
{
    match error {
        Errno::Perm => Condition::Unprivileged,
        Errno::BadFd => Condition::Unheld(rs),
        Errno::TooBig => Condition::Full,
        _ => Condition::Other,
    }
}

/// The condition of an error that a call fails with which no kernel changes.
#[tactic(auto, unfolding(crate::specs::Meanings::failing, ll_trace::specs::Borrowed::is_of_rights))]
fn of_other(abi: Abi, op: &Op, error: Errno) -> Condition
    requires { is_of_rights op.now ≡ false }
    ensures { (records : List OneRecord) (o : Origins)
        → condition_in op.now result ≡ conditions.condition abi records o op.now error }
{
    match op {
        Op::Restrict { rs } => of_restrict(*rs, error),
        _ => Condition::Other,
    }
}

/// The condition of an error that a call fails with by no layer.
#[tactic(auto, unfolding(crate::specs::Meanings::failing, ll_trace::specs::Borrowed::meant))]
pub(crate) fn condition_of(
    case: &Case<'_>,
    trail: &ProcessOrigins,
    abi: Abi,
    seen: &Seen<'_>,
    error: Errno,
) -> Condition
    ensures { (o : Origins) → Follows trail.now o → condition_in seen.now result
        ≡ conditions.condition abi case.now.records o seen.now error }
{
    match seen.call() {
        Call::Create { fs, .. } => of_create(abi, fs, error),
        Call::AddPath { rs, fs, .. } => of_add_path(rs, fs, handled(case, trail, rs).0, error),
        Call::AddPort { rs, port, net } => {
            of_add_port(abi, rs, port, net, handled(case, trail, rs).1, error)
        }
        Call::CreateEmpty { .. } => Condition::Other,
        Call::LeaveOutPath { .. } => Condition::Other,
        Call::LeaveOutPort => Condition::Other,
        Call::Other(op) => of_other(abi, op, error),
    }
}
