//! The words for calls that fail by no layer.

ghost use Rattle.std.specs.Prelude.{◌≡◌, ◌++◌, codes, decimal};
ghost use Rattle.json.specs.Print.{escape};
ghost use Rattle.ll_rights.specs.Abis.{number_of};
ghost use Rattle.ll_explanations.specs.Meanings.{condition_in, port_rights_in, rights_in};
ghost use Rattle.ll_explanations.specs.{Meant.text_named, declared.why.Which.TheVariants.First};
ghost use Rattle.ll_explain.specs.Buffers.{adding};
ghost use Rattle.ll_explain.specs.Words.{condition_text, port_rights_text, rights_text, unknown_text};

use crate::buffer::TextBuffer;
use crate::rights::{push_port_rights, push_rights};
use crate::words::{push_escaped, push_numbered, push_words};
use ll_explanations::{Condition, Which, text_of};
use ll_rights::{Abi, Fs, Net, RightSet};
use ll_trace::Op;

/// Adds the rights that a version doesn't know, which has some: if none of those for files is, it is one for ports.
fn push_unknown_rights(text: &mut TextBuffer, rights: Fs)
    ensures { text.new ≡ adding text.old (unknown_text (rights_in rights)) }
{
    if rights.is_empty() {
        push_words(text, "a right for ports");
    } else {
        push_rights(text, rights);
    }
}

/// Says which rights a version doesn't know.
fn push_unknown(text: &mut TextBuffer, abi: Abi, rights: Fs)
    ensures { text.new ≡ adding text.old (codes "ABI " ++ decimal (number_of abi) ++ codes " does not know "
        ++ unknown_text (rights_in rights)) }
{
    push_numbered(text, "ABI ", abi.number(), " does not know ");
    push_unknown_rights(text, rights);
}

/// Says something of a version.
fn push_version(text: &mut TextBuffer, abi: Abi, said: &str)
    ensures { text.new ≡ adding text.old (codes "ABI " ++ decimal (number_of abi) ++ said.now) }
{
    push_numbered(text, "ABI ", abi.number(), said);
}

/// Says which rights for files a ruleset doesn't handle.
#[tactic(auto, using(crate::proofs::Buffering::adding_both))]
fn push_unhandled(text: &mut TextBuffer, rights: Fs)
    ensures { text.new ≡ adding text.old (codes "the ruleset does not handle " ++ rights_text (rights_in rights)) }
{
    push_words(text, "the ruleset does not handle ");
    push_rights(text, rights);
}

/// Says which rights for ports a ruleset doesn't handle.
#[tactic(auto, using(crate::proofs::Buffering::adding_both))]
fn push_unhandled_on_ports(text: &mut TextBuffer, rights: Net)
    ensures { text.new ≡ adding text.old (codes "the ruleset does not handle " ++ port_rights_text (port_rights_in rights)) }
{
    push_words(text, "the ruleset does not handle ");
    push_port_rights(text, rights);
}

/// Adds the path of a call that adds a rule for one.
fn push_path_of_rule(text: &mut TextBuffer, op: &Op)
    ensures { text.new ≡ adding text.old (escape (text_named op.now First)) }
{
    push_escaped(text, text_of(op, Which::First))
}

/// Adds the path of a call that adds a rule for one, what is said of it, and rights for files.
#[tactic(auto, using(crate::proofs::Appending::appended_3))]
fn push_said_of_rule(text: &mut TextBuffer, op: &Op, said: &str, rights: Fs)
    ensures { text.new ≡ adding text.old (escape (text_named op.now First) ++ said.now
        ++ rights_text (rights_in rights)) }
{
    push_path_of_rule(text, op);
    push_words(text, said);
    push_rights(text, rights);
}

/// Says why a call fails by no layer.
#[tactic(auto, unfolding(ll_explanations::specs::Meanings::condition_in, crate::specs::Words::condition_text))]
pub(crate) fn push_condition(text: &mut TextBuffer, op: &Op, condition: &Condition)
    ensures { text.new ≡ adding text.old (condition_text (condition_in op.now condition.now)) }
{
    match condition {
        Condition::Unknown(abi, rights) => push_unknown(text, *abi, *rights),
        Condition::Portless(abi) => push_version(text, *abi, " has no rules for ports"),
        Condition::Rightless => push_words(text, "no right is named"),
        Condition::Unheld(rs) => push_numbered(text, "ruleset ", *rs, " is not held"),
        Condition::Unhandled(rights) => push_unhandled(text, *rights),
        Condition::UnhandledOnPorts(rights) => push_unhandled_on_ports(text, *rights),
        Condition::OnlyForDirectories(rights) => push_said_of_rule(
            text,
            op,
            " is not a directory, and only directories have ",
            *rights,
        ),
        Condition::NoPort(port) => push_numbered(text, "port ", *port, " is above 65535"),
        Condition::Unprivileged => push_words(
            text,
            "the process has neither no_new_privs nor CAP_SYS_ADMIN",
        ),
        Condition::Full => push_words(text, "the process has 16 layers already"),
        Condition::Other => push_words(text, "the call fails"),
    }
}
