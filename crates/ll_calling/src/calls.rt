//! The calls that put policies in force, as lines of JSON.

ghost use Rattle.std.specs.Prelude.{◌≡◌, ◌≢◌, ◌++◌, IfOk, IfErr, OnOk, flat_map, map};
ghost use Rattle.ll_lines.specs.declared.fault.Cause.TheVariants.{Memory as NoMemoryLeft};
ghost use Rattle.ll_lines.specs.{LineByLine.line_view, Readers.Fails, Reading.IsBad};
ghost use Rattle.ll_values.specs.Texts.{line_of};
ghost use Rattle.ll_calling.specs.PolicyLines.{policy_on, policy_format, written_in};
ghost use Rattle.ll_calling.specs.Texts as texts;
ghost use Rattle.ll_calling.specs.Answers.{AreCalls, IsTaken};

use crate::objects::Shown::{Files, Network, Number, Whole, Word};
use crate::objects::object_line;
use crate::policy::{LayerRead, PolicyRead};
use ll_enforcing::{Call, enforce};
use ll_fitting::{FittedPathRule, FittedPortRule, RefusedRule, first_refused};
use ll_lines::lines::{FileLine, FilledLines};
use ll_lines::{Cause, ReadFault};
use ll_rights::{Abi, Fs, Net};
use std::alloc::{AllocError, Global};

/// The calls for the policies of a file, as lines, and whether the kernel would refuse a rule.
#[derive(Drop)]
pub struct Called {
    pub text: Vec<u8>,
    pub refused: bool,
}

/// The path of a rule, by its layer's index and its own.
#[tactic(auto, unfolding(crate::specs::Texts::path_in))]
fn path_in<'a>(layers: &'a [LayerRead], layer: usize, rule: usize) -> &'a str
    ensures { result.now ≡ texts.path_in layers.now layer rule }
{
    match layers.get(layer) {
        None => "",
        Some(layer) => match layer.rules.get(rule) {
            None => "",
            Some(rule) => rule.path.as_str(),
        },
    }
}

/// The call that creates a ruleset.
fn create_line(alloc: Global, layer: usize, handled: Fs, ports: Net) -> Result<Vec<u8>, AllocError>
    ensures { IfOk result (λ line. line.items
        ≡ line_of (texts.create_json layer handled ports)) }
{
    let members = [
        ("op", Word("create")),
        ("rs", Whole(0)),
        ("fs", Files(handled)),
        ("net", Network(ports)),
        ("layer", Whole(layer)),
    ];
    object_line(alloc, &members)
}

/// The call that adds a rule on a path.
fn path_line(
    alloc: Global,
    layer: usize,
    rule: FittedPathRule,
    path: &str,
) -> Result<Vec<u8>, AllocError>
    ensures { IfOk result (λ line. line.items ≡ line_of (texts.path_json layer rule path.now)) }
{
    let members = [
        ("op", Word("add_path")),
        ("rs", Whole(0)),
        ("path", Word(path)),
        ("fs", Files(rule.rights)),
        ("layer", Whole(layer)),
        ("rule", Whole(rule.rule)),
    ];
    object_line(alloc, &members)
}

/// The call that adds a rule on a port.
fn port_line(alloc: Global, layer: usize, rule: FittedPortRule) -> Result<Vec<u8>, AllocError>
    ensures { IfOk result (λ line. line.items ≡ line_of (texts.port_json layer rule)) }
{
    let members = [
        ("op", Word("add_port")),
        ("rs", Whole(0)),
        ("port", Number(rule.port)),
        ("net", Network(rule.rights)),
        ("layer", Whole(layer)),
        ("rule", Whole(rule.rule)),
    ];
    object_line(alloc, &members)
}

/// A call on a whole ruleset.
fn ruleset_line(alloc: Global, name: &str, layer: usize) -> Result<Vec<u8>, AllocError>
    ensures { IfOk result (λ line. line.items ≡ line_of (texts.ruleset_json name.now layer)) }
{
    let members = [
        ("op", Word(name)),
        ("rs", Whole(0)),
        ("layer", Whole(layer)),
    ];
    object_line(alloc, &members)
}

/// A call as a line.
#[tactic(auto, unfolding(crate::specs::Texts::call_json))]
fn call_line(alloc: Global, layers: &[LayerRead], call: Call) -> Result<Vec<u8>, AllocError>
    ensures { IfOk result (λ line. line.items
        ≡ line_of (texts.call_json layers.now call)) }
{
    match call {
        Call::NoNewPrivs => object_line(alloc, &[("op", Word("nnp"))]),
        Call::CreateRuleset {
            layer,
            files,
            network,
        } => create_line(alloc, layer, files, network),
        Call::AddPath { layer, rule } => {
            path_line(alloc, layer, rule, path_in(layers, layer, rule.rule))
        }
        Call::AddPort { layer, rule } => port_line(alloc, layer, rule),
        Call::RestrictSelf { layer } => ruleset_line(alloc, "restrict", layer),
        Call::CloseRuleset { layer } => ruleset_line(alloc, "close_rs", layer),
    }
}

/// Puts calls as lines behind a text.
fn put_calls(
    alloc: Global,
    text: &mut Vec<u8>,
    layers: &[LayerRead],
    calls: &[Call],
) -> Result<(), AllocError>
    ensures { OnOk result (text.new.items ≡ text.old.items
        ++ flat_map (λ call. line_of (texts.call_json layers.now call))
        calls.now) }
{
    for call in calls {
        let line = call_line(alloc, layers, *call)?;
        text.extend_from_slice(&line)?;
    }
    Ok(())
}

/// Puts the first rule that the kernel refuses behind a text, if it refuses one.
fn put_refusal(
    alloc: Global,
    text: &mut Vec<u8>,
    refused: Option<RefusedRule>,
) -> Result<(), AllocError>
    ensures { OnOk result (text.new.items ≡ text.old.items ++ texts.refusal_line refused) }
{
    if let Some(first) = refused {
        let members = [
            ("refused", Word("EINVAL")),
            ("layer", Whole(first.layer)),
            ("rule", Whole(first.rule)),
        ];
        let line = object_line(alloc, &members)?;
        text.extend_from_slice(&line)?;
    }
    Ok(())
}

/// Puts the calls for a policy behind a text, and says whether the kernel refuses a rule.
#[tactic(auto, unfolding(crate::specs::Texts::lines_at))]
fn put_policy(
    alloc: Global,
    abi: Abi,
    text: &mut Vec<u8>,
    read: &PolicyRead,
) -> Result<bool, AllocError>
    requires { read.now.policy ≡ map written_in read.now.layers.items }
    ensures text { IfOk result (λ _. text.new.items ≡ text.old.items
        ++ texts.lines_at abi read.now.layers.items) }
    ensures refused { IfOk result (λ refused. refused
        ≡ texts.is_refused_at abi read.now.layers.items) }
{
    let calls = enforce(alloc, &read.policy, abi)?;
    let left = read.policy.fit(alloc, abi)?;
    let refused = first_refused(&left);
    put_calls(alloc, text, &read.layers, &calls)?;
    put_refusal(alloc, text, refused)?;
    Ok(refused.is_some())
}

/// Puts the calls for the policy on a line behind those before them.
fn take_policy(
    alloc: Global,
    abi: Abi,
    line: &FileLine<'_>,
    called: &mut Called,
) -> Result<(), Cause>
    ensures taken { OnOk result (IsTaken abi (line_view line.now) called.old.text.items
        called.old.refused called.new.text.items called.new.refused) }
    ensures fault { IfErr result (λ cause. Fails cause (policy_on line.now.bytes.now)) }
{
    let read = PolicyRead::read(alloc, line.bytes)?;
    let refused = put_policy(alloc, abi, &mut called.text, &read)?;
    called.refused = called.refused || refused;
    Ok(())
}

/// The calls for the policies on the lines of a file that aren't blank, at a version. A file with a line that does not
/// read gets none, but the number of the first such line and its first fault. If memory runs out, the line is the one
/// that was at hand.
#[tactic(auto, using(crate::proofs::Taken::taken_all))]
pub fn call_lines(alloc: Global, bytes: &[u8], abi: Abi) -> Result<Called, ReadFault>
    ensures calls { IfOk result (λ called. AreCalls abi bytes.now called.text.items
        called.refused) }
    ensures fault { IfErr result (λ fault. fault.cause ≢ NoMemoryLeft
        → IsBad policy_format bytes.now fault) }
{
    let mut called = Called {
        text: Vec::new(alloc),
        refused: false,
    };
    for line in FilledLines::new(bytes) {
        if let Err(cause) = take_policy(alloc, abi, &line, &mut called) {
            return Err(line.fault(cause));
        }
    }
    Ok(called)
}
