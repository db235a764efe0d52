//! What holds of every handheld's end at a port. Each function here does nothing: its contract is the law.
ghost use Rattle.std.specs.Prelude.{List};
ghost use Rattle.dlp_commands.specs.DeviceRuns.{DeviceRun};
ghost use Rattle.palm_device.specs.Devices.{Device};
ghost use Rattle.port_link.specs.Desks.{Event};
ghost use Rattle.port_link.specs.Logs.{EntryValue};
ghost use Rattle.port_link.specs.Vigils.{Steps, Vigil, waking};

/// Whatever comes over a port: what a handheld performed is a run of its device, with the replies of that run.
pub fn a_vigil_is_a_run()
    ensures { (device : Device) (events : List Event) (kept : List EntryValue) (vigil : Vigil)
        → Steps (waking device) events kept vigil
        → DeviceRun device vigil.hand.performed vigil.hand.replies vigil.hand.device }
{}
