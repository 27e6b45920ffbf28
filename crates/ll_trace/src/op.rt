//! Records: what a process did, and the process that a record belongs to.

ghost use Rattle.std.specs.Prelude.{◌≡◌, option_map, slice_get};
ghost use Rattle.ll_tree.specs.Trees.{place};

use crate::path_text::{PathText, SecondPath};
use ll_rights::{Fs, Kind, Net};
use ll_tree::{Place, Tree};

/// A process of the trace. Processes are numbered from 0, in the order of the records that start them.
#[derive(Clone, Copy, Debug, PartialEq, Eq)]
pub struct ProcessId(pub u32);

/// One record of the trace: its line in the file, the process that it belongs to, the pid by which
/// the file names that process, and what the process did.
#[derive(Debug, Drop)]
pub struct Record {
    pub line: u64,
    pub process: ProcessId,
    pub pid: u64,
    pub op: Op,
}

/// What a file is opened for.
#[derive(Clone, Copy, Debug, PartialEq, Eq)]
pub enum Mode {
    /// Reading.
    Read,
    /// Writing.
    Write,
    /// Reading and writing.
    Both,
}

/// What an adopted descriptor refers to: a regular file, a device, or something else.
#[derive(Clone, Copy, Debug, PartialEq, Eq)]
pub enum Sort {
    /// A regular file.
    Regular,
    /// A character or block device.
    Device,
    /// Anything else, such as a pipe or a socket.
    Other,
}

/// What the process of a record did. Each variant has the members of its line; `rs` is the
/// number of a ruleset in the process, and `fd` the number of an open file.
#[derive(Debug, Drop)]
pub enum Op {
    /// A process that exists when the trace begins.
    Start {
        nnp: bool,
        admin: bool,
    },
    /// A new process, `child`.
    Fork {
        child: u64,
    },
    /// The end of the process.
    Exit,
    /// The process sets no_new_privs.
    Nnp,
    /// landlock_create_ruleset(2).
    Create {
        rs: u64,
        fs: Fs,
        net: Net,
    },
    /// landlock_add_rule(2) under a path.
    AddPath {
        rs: u64,
        path: PathText,
        fs: Fs,
    },
    /// landlock_add_rule(2) on a port.
    AddPort {
        rs: u64,
        port: u64,
        net: Net,
    },
    /// close(2) of a ruleset.
    CloseRs {
        rs: u64,
    },
    /// landlock_restrict_self(2).
    Restrict {
        rs: u64,
    },
    /// open(2), openat(2), creat(2).
    OpenFile {
        path: PathText,
        fd: u64,
        mode: Mode,
        create: bool,
        trunc: bool,
    },
    /// A descriptor that open(2) did not make.
    Adopt {
        fd: u64,
        kind: Sort,
    },
    /// dup(2), dup2(2), dup3(2).
    Dup {
        fd: u64,
        to: u64,
    },
    /// close(2).
    Close {
        fd: u64,
    },
    /// ftruncate(2).
    Ftruncate {
        fd: u64,
    },
    /// truncate(2).
    Truncate {
        path: PathText,
    },
    /// execve(2).
    Exec {
        path: PathText,
    },
    /// mknod(2), or bind(2) of a local socket.
    Mknod {
        path: PathText,
        kind: Kind,
    },
    /// mkdir(2).
    Mkdir {
        path: PathText,
    },
    /// symlink(2): the new link.
    Symlink {
        path: PathText,
    },
    /// unlink(2).
    Unlink {
        path: PathText,
    },
    /// rmdir(2).
    Rmdir {
        path: PathText,
    },
    /// rename(2), renameat2(2).
    Rename {
        from: PathText,
        to: SecondPath,
        exchange: bool,
    },
    /// link(2).
    Link {
        from: PathText,
        to: SecondPath,
    },
    /// mount(2), pivot_root(2).
    Mount,
    /// bind(2) of a TCP socket.
    Bind {
        port: u16,
    },
    /// connect(2) of a TCP socket.
    Connect {
        port: u16,
    },
    /// ioctl(2); `driver` says whether the command is one that the policy judges.
    Ioctl {
        fd: u64,
        driver: bool,
    },
    /// A program does without a ruleset, as its kernel supports none of the rights that the ruleset
    /// would have handled: the ruleset of this record handles nothing. No line of a file says this:
    /// best effort makes it from a `create`.
    CreateEmpty {
        rs: u64,
    },
    /// A program leaves out a call of landlock_add_rule(2) under a path, as its kernel supports none of
    /// the rights that the rule would have granted. No line of a file says this: best effort makes it
    /// from an `add_path`.
    LeaveOutPath {
        path: PathText,
    },
    /// The same on a port: best effort makes it from an `add_port`.
    LeaveOutPort,
}

/// A pattern for the calls that want something at the place of one path and change nothing; it may bind the path.
#[macro_export]
macro_rules! wants_at_a_path {
    () => {
        $crate::wants_at_a_path!(_)
    };
    ($path:pat) => {
        $crate::Op::Truncate { path: $path }
            | $crate::Op::Exec { path: $path }
            | $crate::Op::Mknod { path: $path, .. }
            | $crate::Op::Mkdir { path: $path }
            | $crate::Op::Symlink { path: $path }
            | $crate::Op::Unlink { path: $path }
            | $crate::Op::Rmdir { path: $path }
    };
}

/// A pattern for the calls that name no path and change nothing.
#[macro_export]
macro_rules! still_without_a_path {
    () => {
        $crate::Op::Exit
            | $crate::Op::LeaveOutPort
            | $crate::Op::Ftruncate { .. }
            | $crate::Op::Ioctl { .. }
            | $crate::Op::Mount
            | $crate::Op::Bind { .. }
            | $crate::Op::Connect { .. }
    };
}

/// A pattern for the calls that change nothing, even if they are allowed. Each `match` with such a pattern
/// names the other operations one by one, so that a new operation must be decided on.
#[macro_export]
macro_rules! changes_nothing {
    () => {
        $crate::still_without_a_path!()
            | $crate::wants_at_a_path!()
            | $crate::Op::LeaveOutPath { .. }
            | $crate::Op::Rename { .. }
            | $crate::Op::Link { .. }
    };
}

/// A pattern for the calls that change something, and name neither a path nor rights.
#[macro_export]
macro_rules! changes_without_names {
    () => {
        $crate::Op::CreateEmpty { .. }
            | $crate::Op::CloseRs { .. }
            | $crate::Op::Restrict { .. }
            | $crate::Op::Nnp
            | $crate::Op::Start { .. }
            | $crate::Op::Fork { .. }
            | $crate::Op::Adopt { .. }
            | $crate::Op::Dup { .. }
            | $crate::Op::Close { .. }
    };
}

impl Op {
    ghost use Rattle.ll_trace.specs.Entries.{is_start, is_exit, pid_started};
    ghost use Rattle.ll_trace.specs.FirstPlaces.{first_place, paths_of};
    ghost use Rattle.ll_trace.specs.Processes.{is_fork, is_starting, forked_by};

    #[tactic(auto, unfolding(crate::specs::Entries::is_start))]
    pub(crate) fn is_start(&self) -> bool
        ensures { result ≡ is_start self.now }
    {
        matches!(self, Op::Start { .. })
    }

    #[tactic(auto, unfolding(crate::specs::Processes::is_fork))]
    pub(crate) fn is_fork(&self) -> bool
        ensures { result ≡ is_fork self.now }
    {
        matches!(self, Op::Fork { .. })
    }

    #[tactic(auto, unfolding(crate::specs::Entries::is_exit))]
    pub(crate) fn is_exit(&self) -> bool
        ensures { result ≡ is_exit self.now }
    {
        matches!(self, Op::Exit)
    }

    /// Whether this operation starts a process.
    #[tactic(auto, unfolding(crate::specs::Processes::is_starting))]
    pub(crate) fn is_starting(&self) -> bool
        ensures { result ≡ is_starting self.now }
    {
        matches!(self, Op::Start { .. } | Op::Fork { .. })
    }

    /// The pid of the process that this operation of the process `pid` starts, if it starts one.
    #[tactic(auto, unfolding(crate::specs::Entries::pid_started))]
    pub(crate) fn started_pid(&self, pid: u64) -> Option<u64>
        ensures { result ≡ pid_started self.now pid }
    {
        match self {
            Op::Start { .. } => Some(pid),
            Op::Fork { child } => Some(*child),
            _ => None,
        }
    }

    /// The path that the call names, or the first of its two.
    #[tactic(auto, unfolding(crate::specs::Operations::paths_of))]
    pub fn first_path(&self) -> Option<&PathText>
        ensures { option_map (λ path. path.now) result ≡ slice_get (paths_of self.now) 0 }
    {
        match self {
            wants_at_a_path!(path)
            | Op::AddPath { path, .. }
            | Op::LeaveOutPath { path }
            | Op::OpenFile { path, .. }
            | Op::Rename { from: path, .. }
            | Op::Link { from: path, .. } => Some(path),
            still_without_a_path!()
            | changes_without_names!()
            | Op::Create { .. }
            | Op::AddPort { .. } => None,
        }
    }

    /// The place of that path, and `Nowhere` for a call without a path.
    #[tactic(auto, unfolding(crate::specs::FirstPlaces::first_place))]
    pub fn first_place(&self, tree: &Tree) -> Place
        ensures { result ≡ first_place tree.now self.now }
    {
        match self.first_path() {
            Some(path) => place_at(tree, path),
            None => Place::Nowhere,
        }
    }

    /// The parent of the process that this operation of the process `own` starts.
    #[tactic(auto, unfolding(crate::specs::Processes::forked_by))]
    pub(crate) fn forked_by(&self, own: ProcessId) -> Option<ProcessId>
        ensures { result ≡ forked_by self.now own }
    {
        match self {
            Op::Fork { .. } => Some(own),
            _ => None,
        }
    }
}

/// The place of a path.
fn place_at(tree: &Tree, path: &PathText) -> Place
    ensures { result ≡ place tree.now path.now }
{
    tree.place_of(path.as_str())
}
