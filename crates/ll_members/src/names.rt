//! The names of members, and the slot of each.

ghost use Rattle.std.specs.Prelude.{◌≡◌, ◌<◌, length, slice_set, IfSome};
ghost use Rattle.ll_members.specs.Slots.{spelt, named, slot_of, slot_at, AreMissing, Keeps};

use crate::row::{Members, NAMES, Name, Slot};

impl Name {
    /// The number of the name's slot.
    #[tactic(auto, unfolding(crate::specs::Slots::slot_of, crate::specs::Slots::names, crate::specs::Slots::spelt))]
    fn slot(self) -> usize
        ensures number { result ≡ slot_of self }
        ensures fits { result < 19 }
    {
        self as usize
    }
}

/// The name that a key is. The names that most records have are tried first.
#[tactic(auto, unfolding(crate::specs::Slots::named, crate::specs::Slots::names, crate::specs::Slots::spelt))]
pub(crate) fn name_of(key: &str) -> Option<Name>
    ensures named { result ≡ named key.now }
    ensures spelt { IfSome result (λ name. key.now ≡ spelt name) }
{
    match key {
        "op" => Some(Name::Op),
        "pid" => Some(Name::Pid),
        "path" => Some(Name::Path),
        "fd" => Some(Name::Fd),
        "mode" => Some(Name::Mode),
        "rs" => Some(Name::Rs),
        "fs" => Some(Name::Fs),
        "net" => Some(Name::Net),
        "port" => Some(Name::Port),
        "child" => Some(Name::Child),
        "from" => Some(Name::From),
        "to" => Some(Name::To),
        "create" => Some(Name::Create),
        "trunc" => Some(Name::Trunc),
        "kind" => Some(Name::Kind),
        "exchange" => Some(Name::Exchange),
        "nnp" => Some(Name::Nnp),
        "admin" => Some(Name::Admin),
        "driver" => Some(Name::Driver),
        _ => None,
    }
}

impl<'l> Members<'l> {
    /// No members.
    #[tactic(auto, using(crate::proofs::NameLemmas::all_missing))]
    pub(crate) fn none() -> Members<'l>
        ensures { AreMissing result }
    {
        Members {
            slots: [Slot::Missing; NAMES],
        }
    }

    /// What there is of a member.
    pub(crate) fn at(&self, name: Name) -> Slot<'l>
        ensures { result ≡ slot_at self.now name }
    {
        self.slots[name.slot()]
    }

    /// Keeps what there is of a member.
    fn put(&mut self, name: Name, slot: Slot<'l>)
        ensures put { self.new.slots ≡ slice_set self.old.slots (slot_of name) slot.entry }
        ensures size { length self.old.slots ≡ 19 }
    {
        self.slots[name.slot()] = slot;
    }

    /// Keeps a value under the name that its key is, where it is one.
    #[tactic(auto, using(crate::proofs::NameLemmas::unnamed_kept, crate::proofs::NameLemmas::named_kept))]
    pub(crate) fn keep(&mut self, key: &str, slot: Slot<'l>)
        ensures { Keeps key.now slot.entry self.old self.new }
    {
        if let Some(name) = name_of(key) {
            self.put(name, slot);
        }
    }
}
