// The options by their spelling.
ghost use Rattle.std.specs.Prelude.{◌≡◌};
ghost use Rattle.model.specs.Command.{look};
ghost use Rattle.commandline.specs.Switches.{switches, switch_from, switch_of, takes_value};

// What an argument is before the first word of a command.
#[derive(Clone, Copy)]
pub enum Switch {
    Table,
    Time,
    Init,
    Owner,
    Installer,
    List,
    Check,
    Diff,
    Keeper,
    End,
    Unknown,
    Word,
}

// The options by their spelling.
const SPELLINGS: [(&[u8], Switch); 10] = [
    (b"-t", Switch::Table),
    (b"--time", Switch::Time),
    (b"--init", Switch::Init),
    (b"--owner", Switch::Owner),
    (b"--installer", Switch::Installer),
    (b"--list", Switch::List),
    (b"--check", Switch::Check),
    (b"--diff", Switch::Diff),
    (b"--keeper", Switch::Keeper),
    (b"--", Switch::End),
];

// The option that a word with a minus spells.
fn spelled(w: &[u8]) -> Switch
    ensures { result ≡ switch_from (look w.now switches) }
{
    for (text, switch) in SPELLINGS {
        if slice::same(w, text) {
            return switch;
        }
    }
    Switch::Unknown
}

// What a word is before the first word of a command: one that begins with a minus is an option.
pub fn switch_of(w: &[u8]) -> Switch
    ensures { result ≡ switch_of w.now }
{
    match w {
        [b'-', ..] => spelled(w),
        _ => Switch::Word,
    }
}

// Whether the argument after an option is its value.
pub fn takes_value(s: Switch) -> bool
    ensures { result ≡ takes_value s }
{
    matches!(
        s,
        Switch::Table | Switch::Time | Switch::Init | Switch::Owner | Switch::Installer
    )
}
