// The options: how each is spelled, what stands behind it, and which command has it.
use crate::Command;

#[derive(Clone, Copy, PartialEq, Eq)]
pub enum Flag {
    Enable,
    Budget,
    EndsAt,
    ChipEnable,
    Pin,
    Scl,
    Sda,
    Cut,
    Fill,
    Form,
    Image,
    Save,
    Drawn,
    Page,
    Vcd,
    Ident,
    Events,
    Letter,
    Lock,
    Wear,
    Bytes,
    Counts,
    List,
    All,
    To,
    From,
    Length,
}

pub(crate) const FLAGS: [Flag; 27] = [
    Flag::Enable,
    Flag::Budget,
    Flag::EndsAt,
    Flag::ChipEnable,
    Flag::Pin,
    Flag::Scl,
    Flag::Sda,
    Flag::Cut,
    Flag::Fill,
    Flag::Form,
    Flag::Image,
    Flag::Save,
    Flag::Drawn,
    Flag::Page,
    Flag::Vcd,
    Flag::Ident,
    Flag::Events,
    Flag::Letter,
    Flag::Lock,
    Flag::Wear,
    Flag::Bytes,
    Flag::Counts,
    Flag::List,
    Flag::All,
    Flag::To,
    Flag::From,
    Flag::Length,
];

impl Flag {
    pub fn name(self) -> &'static str {
        match self {
            Flag::Enable => "--enable",
            Flag::Budget => "--budget",
            Flag::EndsAt => "--ends-at",
            Flag::ChipEnable => "--chip-enable",
            Flag::Pin => "--pin",
            Flag::Scl => "--scl",
            Flag::Sda => "--sda",
            Flag::Cut => "--cut",
            Flag::Fill => "--fill",
            Flag::Form => "--as",
            Flag::Image => "--image",
            Flag::Save => "--save",
            Flag::Drawn => "--capture",
            Flag::Page => "--page",
            Flag::Vcd => "--vcd",
            Flag::Ident => "--ident",
            Flag::Events => "--events",
            Flag::Letter => "--letter",
            Flag::Lock => "--lock",
            Flag::Wear => "--wear",
            Flag::Bytes => "--bytes",
            Flag::Counts => "--counts",
            Flag::List => "--list",
            Flag::All => "--all",
            Flag::To => "--to",
            Flag::From => "--from",
            Flag::Length => "--length",
        }
    }
}

// ---- which command has which

// Of a run of driver and chip.
fn of_run(flag: Flag) -> bool {
    matches!(
        flag,
        Flag::Budget
            | Flag::EndsAt
            | Flag::ChipEnable
            | Flag::Pin
            | Flag::Form
            | Flag::Image
            | Flag::Save
            | Flag::Drawn
            | Flag::Vcd
            | Flag::Ident
            | Flag::Events
            | Flag::Wear
    )
}

fn of_write(flag: Flag) -> bool {
    of_run(flag) || matches!(flag, Flag::Cut | Flag::Fill | Flag::Page | Flag::Lock)
}

fn of_capture(flag: Flag) -> bool {
    matches!(
        flag,
        Flag::Scl
            | Flag::Sda
            | Flag::Letter
            | Flag::Pin
            | Flag::Form
            | Flag::Image
            | Flag::Save
            | Flag::Events
            | Flag::Wear
    )
}

fn of_wear(flag: Flag) -> bool {
    matches!(
        flag,
        Flag::Counts | Flag::List | Flag::All | Flag::Image | Flag::Save
    )
}

fn of_dump(flag: Flag) -> bool {
    matches!(flag, Flag::Ident | Flag::All | Flag::From | Flag::Length)
}

impl Command {
    pub fn has(self, flag: Flag) -> bool {
        match self {
            Command::Trace => matches!(flag, Flag::Bytes | Flag::Vcd),
            Command::Write => of_write(flag),
            Command::Read => of_run(flag),
            Command::Power => matches!(flag, Flag::Ident | Flag::Enable),
            Command::Bench => flag == Flag::Enable,
            Command::Capture => of_capture(flag),
            Command::Hex => matches!(flag, Flag::Save | Flag::Form),
            Command::Image => flag == Flag::To,
            Command::Wear => of_wear(flag),
            Command::Dump => of_dump(flag),
            Command::Info | Command::Compare | Command::Parts | Command::Help | Command::Version =>
                false,
        }
    }

    // Its option that a word names.
    pub fn flag_named(self, word: &[u8]) -> Option<Flag> {
        FLAGS
            .iter()
            .copied()
            .find(|f| self.has(*f) && f.name().as_bytes() == word)
    }
}
