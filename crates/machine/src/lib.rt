// The machine's own state, a struct by value. Document 01, "Ports": what the ports set, how it is at
// power-up, and the vertical tick. Document 02, ticket 2: whether the Z80 runs; ticket 3: the watchdog.
#![tactic(auto)]

ghost use Rattle.std.specs.Prelude.{◌≡◌};
ghost use Rattle.lent.specs.Refusals.{answered};
ghost use Rattle.machine.specs.Power.{power_up, vertical_tick};
ghost use Rattle.machine.specs.Settings.{columns, scroll_latch, z80_runs, blanked, graphics};
ghost use Rattle.machine.specs.Watchdog.{watchdog_tick};
ghost use Rattle.machine.specs.Stopped.{stop_of_8088, stop_of_z80};
ghost use Rattle.machine.specs.Written.{written};

use lent::Refusal;

// Reset begins at this tick after the last acknowledgement, and ends at this tick after it began.
const WATCH_TICKS: u8 = 128;

#[repr(C)]
#[derive(Clone, Copy, Debug, PartialEq, Eq)]
pub struct Machine {
    // 132 columns, else 80.
    pub columns132: bool,
    // 50 Hz, else 60.
    pub hertz50: bool,
    pub interlace: bool,
    // The scroll latch, read modulo 16.
    pub latch: u8,
    // The blink flip-flop.
    pub blink: bool,
    // The vertical interrupt.
    pub interrupt: bool,
    // Reverse field.
    pub reverse: bool,
    // The watchdog is enabled.
    pub watchdog: bool,
    // The watchdog's count of ticks, 0 to 127; a larger one is as 127.
    pub count: u8,
    // The 8088 is in reset.
    pub reset: bool,
    // The byte held by port 0A.
    pub held: u8,
}

// The answer of a write to a port: the machine afterwards, which is the machine before where the
// write is refused.
#[repr(C)]
#[derive(Clone, Copy, Debug, PartialEq, Eq)]
pub struct Written {
    pub refusal: u8,
    pub machine: Machine,
}

impl Written {
    // What a write to a port tells C.
    pub fn told(before: Machine, outcome: Result<Machine, Refusal>) -> Written
        ensures { result ≡ written before outcome }
    {
        match outcome {
            Ok(machine) => Written {
                refusal: lent::ACCEPTED,
                machine,
            },
            Err(refusal) => Written {
                refusal: refusal.number(),
                machine: before,
            },
        }
    }
}

impl Machine {
    // The machine at power-up.
    pub fn power_up() -> Machine
        ensures { result ≡ power_up }
    {
        Machine {
            columns132: false,
            hertz50: false,
            interlace: false,
            latch: 0,
            blink: false,
            interrupt: false,
            reverse: false,
            watchdog: false,
            count: 0,
            reset: false,
            held: 0,
        }
    }

    // The machine after a vertical tick, which sets the vertical interrupt.
    pub fn vertical_tick(mut self) -> Machine
        ensures { result ≡ vertical_tick self }
    {
        self.interrupt = true;
        self
    }

    // The machine after a tick of the watchdog's clock. In reset it counts also if the watchdog is disabled: what began
    // ends.
    pub fn watchdog_tick(mut self) -> Machine
        ensures { result ≡ watchdog_tick self }
    {
        let counts = self.reset | self.watchdog;
        if !counts {
            self.count = 0;
            return self;
        }
        if self.count < WATCH_TICKS - 1 {
            self.count += 1;
            return self;
        }
        self.count = 0;
        self.reset = !self.reset;
        self
    }

    // Every access of the 8088 is refused while it is in reset.
    pub fn stop_of_8088(self) -> Result<(), Refusal>
        ensures { answered result ≡ stop_of_8088 self }
    {
        if self.reset {
            return Err(Refusal::InReset);
        }
        Ok(())
    }

    // Every access of the Z80 is refused while it is held.
    pub fn stop_of_z80(self) -> Result<(), Refusal>
        ensures { answered result ≡ stop_of_z80 self }
    {
        if !self.z80_runs() {
            return Err(Refusal::Z80Held);
        }
        Ok(())
    }

    // How many columns the screen is set to: 80 or 132.
    pub fn columns(self) -> usize
        ensures { result ≡ columns self }
    {
        if self.columns132 { 132 } else { 80 }
    }

    // The scroll latch as it is read: modulo 16.
    pub fn scroll_latch(self) -> u8
        ensures { result ≡ scroll_latch self }
    {
        self.latch % 16
    }

    // Whether bit 0 of the byte that port 0A holds is set: the Z80 runs only while it is.
    pub fn z80_runs(self) -> bool
        ensures { result ≡ z80_runs self }
    {
        self.held % 2 == 1
    }

    // Whether bit 1 of the byte that port 0A holds is clear, which blanks the display.
    pub fn blanked(self) -> bool
        ensures { result ≡ blanked self }
    {
        self.held / 2 % 2 == 0
    }

    // Whether bit 2 of the byte that port 0A holds is set, which selects the graphics board.
    pub fn graphics(self) -> bool
        ensures { result ≡ graphics self }
    {
        self.held / 4 % 2 == 1
    }
}
