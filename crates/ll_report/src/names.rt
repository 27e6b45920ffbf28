//! The names of errors.

ghost use Rattle.std.specs.Prelude.{◌≡◌};
ghost use Rattle.ll_report.specs.Lines as spec;

use ll_rules::Errno;

/// The name of an error.
pub fn error_name(error: Errno) -> &'static str
    ensures { result.now ≡ spec.error_name error }
{
    match error {
        Errno::Perm => "EPERM",
        Errno::BadFd => "EBADF",
        Errno::Acces => "EACCES",
        Errno::XDev => "EXDEV",
        Errno::Inval => "EINVAL",
        Errno::TooBig => "E2BIG",
        Errno::NoMsg => "ENOMSG",
    }
}
