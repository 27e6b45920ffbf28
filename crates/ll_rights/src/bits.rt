//! Sets of named bits.

ghost use Rattle.std.specs.Prelude.{◌≡◌, ◌<◌};
ghost use Rattle.ll_rights.specs.{Sets.has_bit, Supported.bits_without};

/// Whether a set of bits, this many of them named, has a bit; all bits without a name are one member, which has the bit
/// behind the named ones.
pub(crate) fn has_bit(named: u32, bits: u32, bit: u32) -> bool
    requires { named < 32 }
    ensures { result ≡ has_bit named bits bit }
{
    if bit < named {
        bits >> bit & 1 == 1
    } else {
        bits >= 1 << named
    }
}

/// The bits of a set that another lacks.
#[tactic(auto, using(crate::proofs::Bitwise::lacks_taken))]
pub(crate) fn without(bits: u32, taken: u32) -> u32
    ensures { result ≡ bits_without bits taken }
{
    bits & !taken
}
