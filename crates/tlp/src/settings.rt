// The settings that every call is given, and their list.
ghost use Rattle.std.specs.Prelude.{◌≡◌};
ghost use Rattle.bits.specs.Choice.{one_of};
ghost use Rattle.tlp.specs.Settings.{sizes, boundaries, settings_listed};

// Maximum payload size, maximum read request size and read completion boundary, in bytes.
#[derive(Clone, Copy, Debug, PartialEq, Eq)]
pub struct Settings {
    pub mps: u32,
    pub mrrs: u32,
    pub rcb: u32,
}

// The powers of two from 128 to 4096.
fn size_listed(n: u32) -> bool
    ensures { result ≡ one_of sizes n }
{
    matches!(n, 128..=4096) && n.is_power_of_two()
}

fn boundary_listed(n: u32) -> bool
    ensures { result ≡ one_of boundaries n }
{
    matches!(n, 64 | 128)
}

// Whether every setting is in its list.
#[tactic(auto, unfolding(crate::specs::Settings::settings_listed))]
pub fn settings_listed(settings: Settings) -> bool
    ensures { result ≡ settings_listed settings }
{
    size_listed(settings.mps) && size_listed(settings.mrrs) && boundary_listed(settings.rcb)
}
