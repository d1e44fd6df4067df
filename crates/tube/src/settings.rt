// The settings that the arguments give, and the machine after the port writes that make them.
use lent::{NVM_BYTES, Refusal, SHADOW_BYTES};
use machine::Machine;

#[derive(Clone, Copy, Default)]
pub struct Settings {
    columns132: bool,
    reverse: bool,
    // The blink flip-flop is set.
    blink: bool,
    blanked: bool,
    // The scroll latch, 0 to 9.
    latch: u8,
}

impl Settings {
    // The settings with what a word asks for, if it is one of the settings.
    fn with_word(self, word: &[u8]) -> Option<Settings> {
        match word {
            b"132" => Some(Settings {
                columns132: true,
                ..self
            }),
            b"reverse" => Some(Settings {
                reverse: true,
                ..self
            }),
            b"blink" => Some(Settings {
                blink: true,
                ..self
            }),
            b"blanked" => Some(Settings {
                blanked: true,
                ..self
            }),
            [b'l', b'a', b't', b'c', b'h', b'=', digit @ b'0'..=b'9'] => Some(Settings {
                latch: *digit - b'0',
                ..self
            }),
            _ => None,
        }
    }

    // The settings that the program's arguments name, if each of them is one.
    pub fn from_arguments(rt: &HostRuntime) -> Option<Settings> {
        let mut settings = Settings::default();
        for i in 1..usize::MAX {
            if !console::has_argument(rt, i) {
                break;
            }
            // A longer word is none of the settings, and is answered as an empty one.
            let mut word = [0; 8];
            let n = console::argument(rt, i, &mut word);
            settings = settings.with_word(&word[..n])?;
        }
        Some(settings)
    }

    // The machine that has these settings: power-up, and then a write to a port for each.
    pub fn machine(self) -> Result<Machine, Refusal> {
        let mut machine = Machine::power_up();
        if !self.blanked {
            machine = write(machine, 0x0A, 0x02)?;
        }
        if self.columns132 {
            machine = write(machine, 0x04, 0x10)?;
        }
        if self.reverse {
            machine = write(machine, 0x0C, 0x0A)?;
        }
        if self.blink {
            machine = write(machine, 0x0C, 0x08)?;
        }
        if self.latch > 0 {
            // The low two bits of the latch, and its high two.
            machine = write(machine, 0x0C, self.latch % 4)?;
            machine = write(machine, 0x0C, self.latch / 4 % 4 + 4)?;
        }
        Ok(machine)
    }
}

fn write(machine: Machine, port: u16, code: u8) -> Result<Machine, Refusal> {
    let mut shadow = [0; SHADOW_BYTES];
    let mut nvm = [0; NVM_BYTES];
    ports::write_port(machine, &mut shadow, &mut nvm, port, code)
}
