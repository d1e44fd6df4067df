// The machine: power-up, the two ticks, its settings and the write ports.
ghost use Rattle.std.specs.Prelude.{◌≡◌};
ghost use Rattle.machine.specs.Power.{power_up, vertical_tick};
ghost use Rattle.machine.specs.Settings.{columns, scroll_latch, z80_runs, blanked, graphics};
ghost use Rattle.machine.specs.Watchdog.{watchdog_tick};
ghost use Rattle.diagnostic.specs.Diagnostic.{written_port};
ghost use Rattle.ports.specs.Ports.{write_port};
ghost use Rattle.rainbow.specs.Version.{version};

use machine::{Machine, Written};

// RAINBOW_VERSION of the header.
const VERSION: u32 = 9;

// The version of the header that this archive was made for.
#[unsafe(no_mangle)]
pub extern "C" fn rainbow_version() -> u32
    ensures { result ≡ version }
{
    VERSION
}

// The machine at power-up.
#[unsafe(no_mangle)]
pub extern "C" fn rainbow_power_up() -> Machine
    ensures { result ≡ power_up }
{
    Machine::power_up()
}

// The machine after a vertical tick.
#[unsafe(no_mangle)]
pub extern "C" fn rainbow_vertical_tick(machine: Machine) -> Machine
    ensures { result ≡ vertical_tick machine }
{
    machine.vertical_tick()
}

// The machine after a tick of the watchdog's clock.
#[unsafe(no_mangle)]
pub extern "C" fn rainbow_watchdog_tick(machine: Machine) -> Machine
    ensures { result ≡ watchdog_tick machine }
{
    machine.watchdog_tick()
}

// How many columns the screen is set to: 80 or 132.
#[unsafe(no_mangle)]
pub extern "C" fn rainbow_columns(machine: Machine) -> usize
    ensures { result ≡ columns machine }
{
    machine.columns()
}

// The scroll latch as it is read: modulo 16.
#[unsafe(no_mangle)]
pub extern "C" fn rainbow_scroll_latch(machine: Machine) -> u8
    ensures { result ≡ scroll_latch machine }
{
    machine.scroll_latch()
}

// Whether the Z80 runs.
#[unsafe(no_mangle)]
pub extern "C" fn rainbow_z80_runs(machine: Machine) -> bool
    ensures { result ≡ z80_runs machine }
{
    machine.z80_runs()
}

// Whether the display is blanked.
#[unsafe(no_mangle)]
pub extern "C" fn rainbow_blanked(machine: Machine) -> bool
    ensures { result ≡ blanked machine }
{
    machine.blanked()
}

// Whether the graphics board is selected.
#[unsafe(no_mangle)]
pub extern "C" fn rainbow_graphics(machine: Machine) -> bool
    ensures { result ≡ graphics machine }
{
    machine.graphics()
}

// Writes a code to a port.
#[unsafe(no_mangle)]
pub extern "C" fn rainbow_write_port(
    machine: Machine,
    shadow: &mut [u8],
    nvm: &mut [u8],
    port: u16,
    code: u8,
) -> Written
    ensures { written_port result shadow.new nvm.new
        ≡ write_port machine shadow.old nvm.old port code }
{
    Written::told(machine, ports::write_port(machine, shadow, nvm, port, code))
}
