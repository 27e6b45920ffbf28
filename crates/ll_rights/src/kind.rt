//! The kinds of files.

ghost use Rattle.std.specs.Prelude.{◌≡◌};
ghost use Rattle.ll_rights.specs.Rights.{only};
ghost use Rattle.ll_rights.specs.Kinds.{make_right_of, remove_right_of};

use crate::fs::Fs;

/// What kind of object a path names.
#[derive(Clone, Copy, Debug, PartialEq, Eq)]
pub enum Kind {
    /// A directory.
    Dir,
    /// A regular file.
    Reg,
    /// A symbolic link.
    Sym,
    /// A character device.
    Char,
    /// A block device.
    Block,
    /// A named pipe.
    Fifo,
    /// A UNIX domain socket.
    Sock,
}

impl Kind {
    /// The one right that making an object of this kind asks of the directory that gets it
    /// (landlock(7), "Filesystem actions").
    #[tactic(auto, unfolding(crate::specs::Rights::only))]
    pub fn make_right(self) -> Fs
        ensures { result ≡ only (make_right_of self) }
    {
        match self {
            Kind::Dir => Fs::MAKE_DIR,
            Kind::Reg => Fs::MAKE_REG,
            Kind::Sym => Fs::MAKE_SYM,
            Kind::Char => Fs::MAKE_CHAR,
            Kind::Block => Fs::MAKE_BLOCK,
            Kind::Fifo => Fs::MAKE_FIFO,
            Kind::Sock => Fs::MAKE_SOCK,
        }
    }

    /// The one right that removing an object of this kind asks of its directory
    /// (landlock(7), "Filesystem actions").
    #[tactic(auto, unfolding(crate::specs::Rights::only))]
    pub fn remove_right(self) -> Fs
        ensures { result ≡ only (remove_right_of self) }
    {
        match self {
            Kind::Dir => Fs::REMOVE_DIR,
            _ => Fs::REMOVE_FILE,
        }
    }
}
