//! Why calls fail by no layer.
#![tactic(auto, unfolding(crate::specs::Why::by_word, crate::specs::Writing::writing))]

ghost use Rattle.std.specs.Prelude.{◌≡◌, ◌∷◌, [], codes};
ghost use Rattle.json.specs.{Json.string, Tree.json_tokens};
ghost use Rattle.ll_rights.specs.Abis.{number_of};
ghost use Rattle.ll_explanations.specs.{Meant.text_named, declared.why.Which.TheVariants.First};
ghost use Rattle.ll_explanations.specs.Meanings.{condition_in, rights_in};
ghost use Rattle.ll_json.specs.{Parts.whole, Writing.writing};
ghost use Rattle.ll_json.specs.Why.{by_condition, condition_json, rights_json, words_json};

use crate::json_text::JsonText;
use crate::rights::write_rights_as;
use crate::words::{begin_by, write_alone, write_number, write_numbered, write_text};
use ll_explain::WordedSet;
use ll_explanations::{Condition, Which, text_of};
use ll_rights::{Abi, Fs};
use ll_trace::Op;

/// Writes which rights a version doesn't know.
fn write_unknown(out: &mut JsonText, abi: Abi, rights: Fs)
    ensures { out.new ≡ writing out.old (json_tokens (by_condition (codes "unknown")
        ((codes "abi", whole (number_of abi)) ∷ (codes "rights", rights_json (rights_in rights))
        ∷ []))) }
{
    begin_by(out, "condition", "unknown");
    write_number(out, "abi", abi.number());
    write_rights_as(out, "rights", rights);
    out.end_object();
}

/// Writes that a version has no rules for ports.
fn write_portless(out: &mut JsonText, abi: Abi)
    ensures { out.new ≡ writing out.old (json_tokens
        (by_condition (codes "portless") ((codes "abi", whole (number_of abi)) ∷ []))) }
{
    write_numbered(out, "condition", "portless", "abi", abi.number())
}

/// Writes, by a word for it, which rights a ruleset doesn't handle.
fn write_unhandled<R: WordedSet>(out: &mut JsonText, word: &str, rights: R)
    ensures { out.new ≡ writing out.old (json_tokens
        (by_condition word.now ((codes "rights", words_json (R.words rights)) ∷ []))) }
{
    begin_by(out, "condition", word);
    write_rights_as(out, "rights", rights);
    out.end_object();
}

/// Writes, by a word for it, rights and the path of a call that adds a rule for one.
fn write_rule(out: &mut JsonText, op: &Op, word: &str, rights: Fs)
    ensures { out.new ≡ writing out.old (json_tokens
        (by_condition word.now ((codes "rights", rights_json (rights_in rights))
        ∷ (codes "path", string (text_named op.now First)) ∷ []))) }
{
    begin_by(out, "condition", word);
    write_rights_as(out, "rights", rights);
    write_text(out, "path", text_of(op, Which::First));
    out.end_object();
}

/// Writes why a call fails by no layer.
#[tactic(auto, unfolding(ll_explanations::specs::Meanings::condition_in, crate::specs::Why::condition_json))]
pub(crate) fn write_condition(out: &mut JsonText, op: &Op, condition: &Condition)
    ensures { out.new ≡ writing out.old
        (json_tokens (condition_json (condition_in op.now condition.now))) }
{
    match condition {
        Condition::Unknown(abi, rights) => write_unknown(out, *abi, *rights),
        Condition::Portless(abi) => write_portless(out, *abi),
        Condition::Rightless => write_alone(out, "condition", "rightless"),
        Condition::Unheld(rs) => write_numbered(out, "condition", "unheld", "rs", *rs),
        Condition::Unhandled(rights) => write_unhandled(out, "unhandled", *rights),
        Condition::UnhandledOnPorts(rights) => {
            write_unhandled(out, "unhandled_on_ports", *rights)
        }
        Condition::OnlyForDirectories(rights) => {
            write_rule(out, op, "only_for_directories", *rights)
        }
        Condition::NoPort(port) => write_numbered(out, "condition", "no_port", "port", *port),
        Condition::Unprivileged => write_alone(out, "condition", "unprivileged"),
        Condition::Full => write_alone(out, "condition", "full"),
        Condition::Other => write_alone(out, "condition", "other"),
    }
}
