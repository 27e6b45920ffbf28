//! The tables of rights, against the kernel's header.

use bitflags::Flags;
use ll_rights::{Abi, Fs, FsRight, Kind, Net, NetRight, RightSet, fs_of_name, net_of_name};

/// Each right with its bit in `linux/landlock.h` and the version it came with.
const FILES: [(&str, u32, u64); 16] = [
    ("execute", 1 << 0, 1),
    ("write_file", 1 << 1, 1),
    ("read_file", 1 << 2, 1),
    ("read_dir", 1 << 3, 1),
    ("remove_dir", 1 << 4, 1),
    ("remove_file", 1 << 5, 1),
    ("make_char", 1 << 6, 1),
    ("make_dir", 1 << 7, 1),
    ("make_reg", 1 << 8, 1),
    ("make_sock", 1 << 9, 1),
    ("make_fifo", 1 << 10, 1),
    ("make_block", 1 << 11, 1),
    ("make_sym", 1 << 12, 1),
    ("refer", 1 << 13, 2),
    ("truncate", 1 << 14, 3),
    ("ioctl_dev", 1 << 15, 5),
];

/// Each version with the bits of its rights for ports.
const VERSIONS: [(u64, u32); 5] = [(1, 0), (2, 0), (3, 0), (4, 3), (5, 3)];

/// Whether the version of a number knows a right, and supports it, exactly if it came with that version or before.
fn is_since(abi: Abi, number: u64, right: Fs, bit: u32, since: u64) -> bool {
    let left = if since <= number { bit } else { 0 };
    right.bits() == bit
        && abi.fs().bits() & (bit | 0x10000) == left
        && right.supported(abi).bits() == left
}

/// Whether the version of a number has these bits of rights for ports.
fn has_ports(abi: Abi, number: u64, known: u32) -> bool {
    abi.number() == number
        && abi.net().bits() == known
        && RightSet::union(Net::BIND_TCP, Net::CONNECT_TCP)
            .supported(abi)
            .bits()
            == known
}

/// Whether each right for files is known to a version from the one on that it came with.
fn has_files(abi: Abi, number: u64) -> bool {
    FILES.iter().all(|(name, bit, since)| is_since(abi, number, fs_of_name(name), *bit, *since))
}

/// Whether the version of a number is there, with these bits of rights for ports and its rights for files.
fn is_version(number: u64, known: u32) -> bool {
    match Abi::new(number) {
        Some(abi) => has_ports(abi, number, known) && has_files(abi, number),
        None => false,
    }
}

#[test]
fn names_and_versions(rt: HostRuntime) {
    for (number, known) in VERSIONS {
        assert!(rt; is_version(number, known), "{number}");
    }
}

#[test]
fn names_on_ports(rt: HostRuntime) {
    let bits = [
        net_of_name("bind_tcp").bits(),
        net_of_name("connect_tcp").bits(),
    ];
    assert_eq!(rt; bits, [1, 2]);
}

fn is_other(name: &str) -> bool {
    fs_of_name(name) == Fs::OTHER && net_of_name(name) == Net::OTHER
}

#[test]
fn other_names(rt: HostRuntime) {
    for name in ["", "READ_FILE", "read", "read_file ", "ioctl"] {
        assert!(rt; is_other(name), "{name}");
    }
}

#[test]
fn other_numbers(rt: HostRuntime) {
    for number in [0, 6, 256, 257, u64::MAX] {
        assert!(rt; Abi::new(number).is_none(), "{number}");
    }
}

#[test]
fn rights_of_a_file(rt: HostRuntime) {
    assert_eq!(rt; Fs::FILE.bits(), 0xc007);
}

/// Whether a right has this name and this bit alone.
fn is_named(right: FsRight, name: &str, bit: u32) -> bool {
    right.name() == name
        && right.set().bits() == bit
        && right.set().has(right)
        && !Fs::NONE.has(right)
}

/// Whether a right for ports has this name and this bit alone.
fn is_named_on_ports(right: NetRight, name: &str, bit: u32) -> bool {
    right.name() == name
        && right.set().bits() == bit
        && right.set().has(right)
        && !Net::NONE.has(right)
}

#[test]
fn rights_in_order(rt: HostRuntime) {
    for ((name, bit, _), right) in FILES.iter().zip(FsRight::all()) {
        assert!(rt; is_named(*right, name, *bit), "{name}");
    }
}

#[test]
fn the_other_right(rt: HostRuntime) {
    assert!(rt; is_named(FsRight::Other, "", 0x10000));
}

const PORTS: [(&str, u32); 3] = [("bind_tcp", 1), ("connect_tcp", 2), ("", 4)];

#[test]
fn rights_on_ports_in_order(rt: HostRuntime) {
    for ((name, bit), right) in PORTS.iter().zip(NetRight::all()) {
        assert!(rt; is_named_on_ports(*right, name, *bit), "{name}");
    }
}

fn has_number(abi: Abi, number: u64) -> bool {
    abi.number() == number
}

#[test]
fn versions_in_order(rt: HostRuntime) {
    for ((number, _), abi) in VERSIONS.iter().zip(Abi::all()) {
        assert!(rt; has_number(*abi, *number), "{number}");
    }
}

/// The right for files that has no name is not in the table.
#[test]
fn as_many_as_are_listed(rt: HostRuntime) {
    let lengths = [
        FsRight::all().len(),
        NetRight::all().len(),
        Abi::all().len(),
    ];
    assert_eq!(rt; lengths, [FILES.len() + 1, PORTS.len(), VERSIONS.len()]);
}

/// Whether these rights make an object of a kind and remove it.
fn is_made_and_removed(kind: Kind, make: &str, remove: &str) -> bool {
    kind.make_right() == fs_of_name(make) && kind.remove_right() == fs_of_name(remove)
}

/// Each kind with the rights to make and to remove an object of it.
const KINDS: [(Kind, &str, &str); 7] = [
    (Kind::Dir, "make_dir", "remove_dir"),
    (Kind::Reg, "make_reg", "remove_file"),
    (Kind::Sym, "make_sym", "remove_file"),
    (Kind::Char, "make_char", "remove_file"),
    (Kind::Block, "make_block", "remove_file"),
    (Kind::Fifo, "make_fifo", "remove_file"),
    (Kind::Sock, "make_sock", "remove_file"),
];

#[test]
fn kinds(rt: HostRuntime) {
    for (kind, make, remove) in KINDS {
        assert!(rt; is_made_and_removed(kind, make, remove), "{make}");
    }
}

#[test]
fn sets_of_either_kind(rt: HostRuntime) {
    let reading = RightSet::union(Fs::READ_FILE, Fs::READ_DIR);
    assert_eq!(rt; reading.common(Fs::FILE), Fs::READ_FILE);
    assert_eq!(rt; Net::BIND_TCP.common(Net::CONNECT_TCP), Net::none());
    assert!(rt; net_of_name("send_udp").has_other());
    assert!(rt; !Net::CONNECT_TCP.has_other());
}
