// The modelled radio module: its types, and its state as numbers, there and back. What it does stands in
// specs/, its code in `radio_target_step`.
#![tactic(auto)]

ghost use Rattle.std.specs.Prelude.{◌≡◌, ok_or};
ghost use Rattle.numbers.specs.declared.Refusal.TheVariants.{NoPoint};
ghost use Rattle.radio_target.specs.State.{module_point, module_state};

use numbers::Refusal;
use radio_command::RadioCommand;
use radio_flash::FlashChange;

// What the module waits for: a command; the data of a page and of those that follow, `left` in all; the data
// of a program for XRAM; or the clock to send a page and those that follow. Page and number are no struct: two of four
// have both, and C's state has them side by side.
#[derive(Clone, Copy)]
pub enum ModulePoint {
    Waits,
    Takes { page: u32, left: u32 },
    Loads { left: u32 },
    Sends { page: u32, left: u32 },
}

// What a command does: its answer, the change of the flash, and the point after it.
#[derive(Clone, Copy)]
pub struct Deed {
    pub answer: RadioCommand,
    pub change: FlashChange,
    pub point: ModulePoint,
}

// The state of a module between two messages, as C has it.
#[repr(C)]
#[derive(Clone, Copy)]
pub struct RadioTarget {
    pub point: u32,
    pub page: u32,
    pub left: u32,
}

// Numbers that are not in use are 0.
impl From<ModulePoint> for RadioTarget {
    ghost from_gives = { λ p t. t ≡ module_state p };

    #[tactic(auto, unfolding(crate::specs::State::module_state))]
    fn from(p: ModulePoint) -> RadioTarget {
        let (point, page, left) = match p {
            ModulePoint::Waits => (0, 0, 0),
            ModulePoint::Takes { page, left } => (1, page, left),
            ModulePoint::Loads { left } => (2, 0, left),
            ModulePoint::Sends { page, left } => (3, page, left),
        };
        RadioTarget { point, page, left }
    }
}

// The point of a state.
impl TryFrom<RadioTarget> for ModulePoint {
    type Error = Refusal;

    ghost try_from_gives = { λ t r. r ≡ ok_or (module_point t) NoPoint };

    #[tactic(auto, unfolding(crate::specs::State::module_point))]
    fn try_from(t: RadioTarget) -> Result<ModulePoint, Refusal> {
        match (t.point, t.page, t.left) {
            (0, 0, 0) => Ok(ModulePoint::Waits),
            (1, page, left) => Ok(ModulePoint::Takes { page, left }),
            (2, 0, left) => Ok(ModulePoint::Loads { left }),
            (3, page, left) => Ok(ModulePoint::Sends { page, left }),
            _ => Err(Refusal::NoPoint),
        }
    }
}

// What a step gives: a number, 0 where the message is taken, the length of the reply, and the state
// afterwards.
#[repr(C)]
#[derive(Clone, Copy)]
pub struct RadioReplied {
    pub number: u32,
    pub reply: u32,
    pub target: RadioTarget,
}
