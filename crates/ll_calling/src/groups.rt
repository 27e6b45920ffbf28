//! Groups of rights.

ghost use Rattle.std.specs.Prelude.{◌≡◌};
ghost use Rattle.ll_rights.specs.Rights as files;
ghost use Rattle.ll_rights.specs.Families.{for_files, for_network, set_of};
ghost use Rattle.ll_calling.specs.Groups as groups;

use bitflags::Flags;
use ll_rights::{Fs, Net, RightSet};

/// All rights for files.
#[tactic(auto, unfolding(ll_rights::specs::Rights::named_rights))]
fn all_files() -> Fs
    ensures { result ≡ set_of for_files files.named_rights }
{
    Fs::from_bits_retain(Fs::OTHER.bits() - 1)
}

/// All rights for files that don't only read or execute.
#[tactic(auto, unfolding(ll_rights::specs::Rights::named_rights))]
fn writing() -> Fs
    ensures { result ≡ set_of for_files groups.writing_rights }
{
    let others = Fs::EXECUTE.bits() | Fs::READ_FILE.bits() | Fs::READ_DIR.bits();
    Fs::from_bits_retain(all_files().bits() - others)
}

/// Sets of rights of which some are a group.
pub(crate) trait Grouped: RightSet {
    ghost use Rattle.std.specs.Prelude.{ℕ, List, Option};

    ghost group: { List ℕ → Option Self };

    /// The rights of a group, by its name.
    fn group(word: &str) -> Option<Self>
        ensures { result ≡ group word.now };
}

impl Grouped for Fs {
    ghost group = { groups.group_of for_files groups.group_named };

    #[tactic(auto, unfolding(crate::specs::Groups::group_named))]
    fn group(word: &str) -> Option<Fs> {
        match word {
            "all" => Some(all_files()),
            "read" => Some(Fs::from_bits_retain(Fs::READ_FILE.bits() | Fs::READ_DIR.bits())),
            "write" => Some(writing()),
            "execute" => Some(Fs::EXECUTE),
            _ => None,
        }
    }
}

impl Grouped for Net {
    ghost group = { groups.group_of for_network groups.group_on_ports };

    #[tactic(auto, unfolding(crate::specs::Groups::group_on_ports))]
    fn group(word: &str) -> Option<Net> {
        match word {
            "all" => Some(Net::from_bits_retain(Net::OTHER.bits() - 1)),
            _ => None,
        }
    }
}
