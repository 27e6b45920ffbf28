//! What a layer lacks on a port, and whether it handles rights for files.

ghost use Rattle.std.specs.Prelude.{◌≡◌, not};
ghost use Rattle.ll_rights.specs.Rights as files;
ghost use Rattle.ll_rules.specs.Checks.{lacks_on_port};
ghost use Rattle.ll_explanations.specs.Confined.{rules_of};

use crate::confinement::OneLayer;
use crate::missing::alone;
use ll_rights::Net;
use ll_rules::{check_mount, check_port};

/// Whether a layer handles a right of a set and doesn't grant it on a port.
pub(crate) fn lacks_on_port(layer: &OneLayer, port: u16, rights: Net) -> bool
    ensures { result ≡ lacks_on_port (rules_of layer.now) port rights }
{
    !check_port(layer.ctx.layers, &alone(layer.id), port, rights).is_empty()
}

/// Whether a layer handles a right for files.
pub(crate) fn handles_files(layer: &OneLayer) -> bool
    ensures { result ≡ not (files.is_empty (rules_of layer.now).handled_files) }
{
    !check_mount(layer.ctx.layers, &alone(layer.id)).is_empty()
}
