// What partitions may do in a mode.
ghost use Rattle.std.specs.Prelude.{◌≡◌};
ghost use Rattle.apex_model.specs.Logbooks as logbooks;

use apex_types::Mode;

/// Whether a partition of this mode is idle. All its calls are refused then.
pub fn is_idle(mode: Mode) -> bool
    ensures { result ≡ logbooks.is_idle mode }
{
    mode == Mode::Idle
}

/// Whether a partition of this mode has started. It creates no more logbooks and ports then.
pub fn is_normal(mode: Mode) -> bool
    ensures { result ≡ logbooks.is_normal mode }
{
    mode == Mode::Normal
}
