//! Sets of access rights for the network.

ghost use Rattle.std.specs.Prelude.{⊤, ◌≡◌, ◌∷◌, [], bytes_eq, codes, find, map};
ghost use Rattle.ll_rights.specs.CodeRights.{net_right};
ghost use Rattle.ll_rights.specs.NetRights as rights;
ghost use Rattle.ll_rights.specs.Families.{for_network};

use crate::abi::Abi;
use crate::bits::{has_bit, without};
use crate::right_set::RightSet;
use bitflags::{Flag, Flags, bitflag_items};

/// The largest TCP port: a port has 16 bits.
pub const LARGEST_PORT: u64 = 65_535;

/// An access right for TCP ports (the kernel's userspace document on Landlock, "Network flags").
#[derive(Clone, Copy, Debug, PartialEq, Eq)]
pub enum NetRight {
    /// Bind a socket to a TCP port.
    BindTcp,
    /// Connect a socket to a TCP port.
    ConnectTcp,
    /// Any right of another name.
    Other,
}

impl NetRight {
    /// All rights, in the order of the table.
    #[tactic(auto, unfolding(crate::specs::NetRights::all_rights))]
    pub fn all() -> &'static [NetRight]
        ensures { map net_right result.now ≡ rights.all_rights }
    {
        &[NetRight::BindTcp, NetRight::ConnectTcp, NetRight::Other]
    }

    /// The number of the right's bit.
    fn bit(self) -> u32
        ensures { result ≡ rights.bit_of (net_right self) }
    {
        self as u32
    }

    /// The right's name, which is empty for `Other`.
    pub fn name(self) -> &'static str
        ensures { result.now ≡ rights.name_of (net_right self) }
    {
        match self {
            NetRight::BindTcp => "bind_tcp",
            NetRight::ConnectTcp => "connect_tcp",
            NetRight::Other => "",
        }
    }

    /// The set of this right alone.
    #[tactic(auto, unfolding(crate::specs::NetRights::only))]
    pub fn set(self) -> Net
        ensures { result ≡ rights.only (net_right self) }
    {
        Net(1 << self.bit())
    }
}

/// A set of access rights for TCP ports (the kernel's userspace document on Landlock, "Network
/// flags").
#[derive(Clone, Copy, Debug, PartialEq, Eq)]
pub struct Net(u32);

bitflag_items! {
    impl Net: u32 {
        const BIND_TCP = 0x1;
        const CONNECT_TCP = 0x2;
        const OTHER = 0x4;
    }
}

impl Flags for Net {
    type Bits = u32;

    ghost exact = { ⊤ };

    ghost table = { (codes "BIND_TCP", 0x1) ∷ (codes "CONNECT_TCP", 0x2)
        ∷ (codes "OTHER", 0x4) ∷ [] };

    ghost set_of = { λ set. set.0 };

    fn flags<'a>() -> &'a [Flag<Net>] {
        Net::FLAGS
    }

    fn bits(&self) -> u32 {
        self.0
    }

    fn from_bits_retain(bits: u32) -> Net {
        Net(bits)
    }
}

impl Net {
    /// No right.
    pub const NONE: Net = Net(0);

    /// The rights that have a name.
    const NAMED: Net = Net(Net::OTHER.0 - 1);

    pub(crate) const SINCE_4: Net = Net(Net::BIND_TCP.0 | Net::CONNECT_TCP.0);
}

impl RightSet for Net {
    type Right = NetRight;

    ghost Named = { rights.NetRight };

    ghost family = { for_network };

    ghost named = { net_right };

    fn all() -> &'static [NetRight] {
        NetRight::all()
    }

    fn name(right: NetRight) -> &'static str {
        right.name()
    }

    fn none() -> Net {
        Net::NONE
    }

    fn of_name(name: &str) -> Net {
        net_of_name(name)
    }

    #[tactic(auto, unfolding(crate::specs::NetRights::has))]
    fn has(self, right: NetRight) -> bool {
        has_bit(NetRight::Other.bit(), self.0, right.bit())
    }

    fn has_other(self) -> bool {
        self.has(NetRight::Other)
    }

    #[tactic(auto, unfolding(crate::specs::NetRights::united))]
    fn union(self, other: Net) -> Net {
        Net(self.0 | other.0)
    }

    fn common(self, other: Net) -> Net {
        Net(self.0 & other.0)
    }

    #[tactic(auto, using(crate::proofs::Sets::net_is_empty))]
    fn is_empty(self) -> bool {
        self.0 == 0
    }

    #[tactic(auto, using(crate::proofs::Sets::net_is_within))]
    fn is_within(self, whole: Net) -> bool {
        self.0 & whole.0 == self.0
    }

    #[tactic(auto, using(crate::proofs::Sets::net_is_lacking))]
    fn lacks(self, handled: Net, granted: Net) -> bool {
        self.0 & handled.0 & !granted.0 != 0
    }

    #[tactic(auto, using(crate::proofs::Supported::net_supported_lacking))]
    fn supported(self, abi: Abi) -> Net {
        Net(without(self.0, without(Net::NAMED.0, abi.net().0)))
    }
}

/// The first of some rights that a text names.
fn named(among: &[NetRight], name: &str) -> Option<NetRight>
    ensures { result
        ≡ find (λ right. bytes_eq name.now (rights.name_of (net_right right))) among.now }
{
    among.iter().copied().find(|right| name == right.name())
}

/// The set of the one right that a name stands for; any name that is no right's is `OTHER`.
#[tactic(auto, using(crate::proofs::Sets::net_named))]
pub fn net_of_name(name: &str) -> Net
    ensures { result ≡ rights.only (rights.right_named name.now) }
{
    named(NetRight::all(), name)
        .unwrap_or(NetRight::Other)
        .set()
}
