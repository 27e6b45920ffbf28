//! Sets of access rights for files.

ghost use Rattle.std.specs.Prelude.{⊤, ◌≡◌, ◌∷◌, [], bytes_eq, codes, find, map};
ghost use Rattle.ll_rights.specs.CodeRights.{fs_right};
ghost use Rattle.ll_rights.specs.Rights as rights;
ghost use Rattle.ll_rights.specs.Families.{for_files};

use crate::abi::Abi;
use crate::bits::{has_bit, without};
use crate::right_set::RightSet;
use bitflags::{Flag, Flags, bitflag_items};

/// An access right for files (landlock(7), "Filesystem actions").
#[derive(Clone, Copy, Debug, PartialEq, Eq)]
pub enum FsRight {
    /// Execute a file.
    Execute,
    /// Open a file for writing.
    WriteFile,
    /// Open a file for reading.
    ReadFile,
    /// Open a directory or list it.
    ReadDir,
    /// Remove or rename a directory.
    RemoveDir,
    /// Remove or rename what is no directory.
    RemoveFile,
    /// Make a character device.
    MakeChar,
    /// Make a directory.
    MakeDir,
    /// Make a regular file.
    MakeReg,
    /// Make a UNIX domain socket.
    MakeSock,
    /// Make a named pipe.
    MakeFifo,
    /// Make a block device.
    MakeBlock,
    /// Make a symbolic link.
    MakeSym,
    /// Link or rename a file from or to another directory.
    Refer,
    /// Truncate a file.
    Truncate,
    /// Use ioctl(2) on a device.
    IoctlDev,
    /// Any right of another name.
    Other,
}

impl FsRight {
    /// All rights, in the order of the table.
    #[tactic(auto, unfolding(crate::specs::Rights::all_rights, crate::specs::Rights::named_rights))]
    pub fn all() -> &'static [FsRight]
        ensures { map fs_right result.now ≡ rights.all_rights }
    {
        &[
            FsRight::Execute,
            FsRight::WriteFile,
            FsRight::ReadFile,
            FsRight::ReadDir,
            FsRight::RemoveDir,
            FsRight::RemoveFile,
            FsRight::MakeChar,
            FsRight::MakeDir,
            FsRight::MakeReg,
            FsRight::MakeSock,
            FsRight::MakeFifo,
            FsRight::MakeBlock,
            FsRight::MakeSym,
            FsRight::Refer,
            FsRight::Truncate,
            FsRight::IoctlDev,
            FsRight::Other,
        ]
    }

    /// The number of the right's bit.
    fn bit(self) -> u32
        ensures { result ≡ rights.bit_of (fs_right self) }
    {
        self as u32
    }

    /// The right's name, which is empty for `Other`.
    pub fn name(self) -> &'static str
        ensures { result.now ≡ rights.name_of (fs_right self) }
    {
        match self {
            FsRight::Execute => "execute",
            FsRight::WriteFile => "write_file",
            FsRight::ReadFile => "read_file",
            FsRight::ReadDir => "read_dir",
            FsRight::RemoveDir => "remove_dir",
            FsRight::RemoveFile => "remove_file",
            FsRight::MakeChar => "make_char",
            FsRight::MakeDir => "make_dir",
            FsRight::MakeReg => "make_reg",
            FsRight::MakeSock => "make_sock",
            FsRight::MakeFifo => "make_fifo",
            FsRight::MakeBlock => "make_block",
            FsRight::MakeSym => "make_sym",
            FsRight::Refer => "refer",
            FsRight::Truncate => "truncate",
            FsRight::IoctlDev => "ioctl_dev",
            FsRight::Other => "",
        }
    }

    /// The set of this right alone.
    #[tactic(auto, unfolding(crate::specs::Rights::only))]
    pub fn set(self) -> Fs
        ensures { result ≡ rights.only (fs_right self) }
    {
        Fs(1 << self.bit())
    }
}

/// A set of access rights for files (landlock(7), "Filesystem actions"; the kernel's userspace
/// document on Landlock, "Filesystem flags").
#[derive(Clone, Copy, Debug, PartialEq, Eq)]
pub struct Fs(u32);

bitflag_items! {
    impl Fs: u32 {
        const EXECUTE = 0x1;
        const WRITE_FILE = 0x2;
        const READ_FILE = 0x4;
        const READ_DIR = 0x8;
        const REMOVE_DIR = 0x10;
        const REMOVE_FILE = 0x20;
        const MAKE_CHAR = 0x40;
        const MAKE_DIR = 0x80;
        const MAKE_REG = 0x100;
        const MAKE_SOCK = 0x200;
        const MAKE_FIFO = 0x400;
        const MAKE_BLOCK = 0x800;
        const MAKE_SYM = 0x1000;
        const REFER = 0x2000;
        const TRUNCATE = 0x4000;
        const IOCTL_DEV = 0x8000;
        const OTHER = 0x1_0000;
    }
}

impl Flags for Fs {
    type Bits = u32;

    ghost exact = { ⊤ };

    ghost table = { (codes "EXECUTE", 0x1) ∷ (codes "WRITE_FILE", 0x2) ∷ (codes "READ_FILE", 0x4)
        ∷ (codes "READ_DIR", 0x8) ∷ (codes "REMOVE_DIR", 0x10) ∷ (codes "REMOVE_FILE", 0x20)
        ∷ (codes "MAKE_CHAR", 0x40) ∷ (codes "MAKE_DIR", 0x80) ∷ (codes "MAKE_REG", 0x100)
        ∷ (codes "MAKE_SOCK", 0x200) ∷ (codes "MAKE_FIFO", 0x400) ∷ (codes "MAKE_BLOCK", 0x800)
        ∷ (codes "MAKE_SYM", 0x1000) ∷ (codes "REFER", 0x2000) ∷ (codes "TRUNCATE", 0x4000)
        ∷ (codes "IOCTL_DEV", 0x8000) ∷ (codes "OTHER", 0x1_0000) ∷ [] };

    ghost set_of = { λ set. set.0 };

    fn flags<'a>() -> &'a [Flag<Fs>] {
        Fs::FLAGS
    }

    fn bits(&self) -> u32 {
        self.0
    }

    fn from_bits_retain(bits: u32) -> Fs {
        Fs(bits)
    }
}

impl Fs {
    /// No right.
    pub const NONE: Fs = Fs(0);

    /// The rights that apply to a file that isn't a directory.
    pub const FILE: Fs = Fs(
        Fs::EXECUTE.0 | Fs::WRITE_FILE.0 | Fs::READ_FILE.0 | Fs::TRUNCATE.0 | Fs::IOCTL_DEV.0,
    );

    /// The rights that have a name.
    const NAMED: Fs = Fs(Fs::OTHER.0 - 1);

    pub(crate) const SINCE_1: Fs = Fs(Fs::REFER.0 - 1);

    pub(crate) const SINCE_2: Fs = Fs(Fs::SINCE_1.0 | Fs::REFER.0);

    pub(crate) const SINCE_3: Fs = Fs(Fs::SINCE_2.0 | Fs::TRUNCATE.0);

    pub(crate) const SINCE_5: Fs = Fs(Fs::SINCE_3.0 | Fs::IOCTL_DEV.0);
}

impl RightSet for Fs {
    type Right = FsRight;

    ghost Named = { rights.FsRight };

    ghost family = { for_files };

    ghost named = { fs_right };

    fn all() -> &'static [FsRight] {
        FsRight::all()
    }

    fn name(right: FsRight) -> &'static str {
        right.name()
    }

    fn none() -> Fs {
        Fs::NONE
    }

    fn of_name(name: &str) -> Fs {
        fs_of_name(name)
    }

    #[tactic(auto, unfolding(crate::specs::Rights::has))]
    fn has(self, right: FsRight) -> bool {
        has_bit(FsRight::Other.bit(), self.0, right.bit())
    }

    fn has_other(self) -> bool {
        self.has(FsRight::Other)
    }

    #[tactic(auto, unfolding(crate::specs::Rights::united))]
    fn union(self, other: Fs) -> Fs {
        Fs(self.0 | other.0)
    }

    fn common(self, other: Fs) -> Fs {
        Fs(self.0 & other.0)
    }

    #[tactic(auto, using(crate::proofs::Sets::fs_is_empty))]
    fn is_empty(self) -> bool {
        self.0 == 0
    }

    #[tactic(auto, using(crate::proofs::Sets::fs_is_within))]
    fn is_within(self, whole: Fs) -> bool {
        self.0 & whole.0 == self.0
    }

    #[tactic(auto, using(crate::proofs::Sets::fs_is_lacking))]
    fn lacks(self, handled: Fs, granted: Fs) -> bool {
        self.0 & handled.0 & !granted.0 != 0
    }

    #[tactic(auto, using(crate::proofs::Supported::fs_supported_lacking), unfolding(crate::specs::Rights::named_rights))]
    fn supported(self, abi: Abi) -> Fs {
        Fs(without(self.0, without(Fs::NAMED.0, abi.fs().0)))
    }
}

/// The first of some rights that a text names.
fn named(among: &[FsRight], name: &str) -> Option<FsRight>
    ensures { result
        ≡ find (λ right. bytes_eq name.now (rights.name_of (fs_right right))) among.now }
{
    among.iter().copied().find(|right| name == right.name())
}

/// The set of the one right that a name stands for; any name that is no right's is `OTHER`.
#[tactic(auto, using(crate::proofs::Sets::fs_named))]
pub fn fs_of_name(name: &str) -> Fs
    ensures { result ≡ rights.only (rights.right_named name.now) }
{
    named(FsRight::all(), name).unwrap_or(FsRight::Other).set()
}
