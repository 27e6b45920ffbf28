//! A row of slots.

ghost use Rattle.std.specs.Prelude.{◌≡◌, length};

use crate::rights::Rights;

/// How many names there are.
pub(crate) const NAMES: usize = 19;

/// The name of a member. The names that most records have stand first.
#[derive(Clone, Copy)]
pub enum Name {
    Op,
    Pid,
    Path,
    Fd,
    Mode,
    Rs,
    Fs,
    Net,
    Port,
    Child,
    From,
    To,
    Create,
    Trunc,
    Kind,
    Exchange,
    Nnp,
    Admin,
    Driver,
}

/// What there is of a member.
#[derive(Clone, Copy)]
pub(crate) enum Slot<'l> {
    /// No member of the name.
    Missing,
    Text(&'l str),
    /// A number, which may be no whole number below 2 ^ 64.
    Number(Option<u64>),
    Truth(bool),
    /// What the texts of a list stand for as names of rights, and None where some value of it is no text.
    Names(Option<Rights>),
    /// Null or an object.
    Other,
}

/// A slot for each name.
#[derive(Drop)]
pub struct Members<'l> {
    pub(crate) slots: [Slot<'l>; NAMES],
    ghost sized: { length slots ≡ 19 },
}
