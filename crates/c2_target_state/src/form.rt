// Which states some target has, by their numbers: tags exist, truth values are 0 or 1, numbers that are not
// in use are 0.
#![tactic(auto, using(std::proofs::lemmas::Bool::Decides::nat_tests), unfolding(crate::specs::Code::Form::effect_in_form, crate::specs::Code::Form::later_in_form, crate::specs::Code::Form::point_in_form, crate::specs::Code::Form::early_in_form, crate::specs::Code::Form::command_in_form, crate::specs::Code::Form::output_in_form, crate::specs::Code::Form::flags_in_form, crate::specs::Code::Form::in_form))]

ghost use Rattle.std.specs.Prelude.{◌≡◌};
ghost use Rattle.c2_target_state.specs.Code.Form.{effect_in_form, point_in_form, command_in_form, output_in_form, flags_in_form, in_form};

use crate::State;

fn effect_in_form(effect: u8, byte: u8) -> bool
    ensures { result ≡ effect_in_form effect byte }
{
    match effect {
        1 | 2 => true,
        0 | 3 | 4 => byte == 0,
        _ => false,
    }
}

fn point_in_form(s: State) -> bool
    ensures { result ≡ point_in_form s.point s.heard s.value s.left s.zeros s.effect s.byte }
{
    let acts = effect_in_form(s.effect, s.byte);
    match s.point {
        0 => s.heard == 0
            && s.value == 0
            && s.left == 0
            && s.zeros == 0
            && s.effect == 0
            && s.byte == 0,
        1..=5 => s.left == 0 && s.zeros == 0 && s.effect == 0 && s.byte == 0,
        6 => s.heard == 0 && s.value == 0 && s.zeros == 0 && s.effect == 0 && s.byte == 0,
        7 => s.heard == 0 && s.value == 0 && s.zeros == 0 && acts,
        8 => s.heard == 0 && s.value == 0 && acts,
        9 => s.heard == 0 && s.zeros == 0 && acts,
        10 => s.heard == 0 && s.value == 0 && s.left == 0 && s.zeros == 0 && acts,
        _ => false,
    }
}

fn command_in_form(s: State) -> bool
    ensures { result ≡ command_in_form s.command s.write s.page s.high s.start s.rest }
{
    match s.command {
        0 | 1 => s.write == 0 && s.page == 0 && s.high == 0 && s.start == 0 && s.rest == 0,
        2 => s.write == 0 && s.high == 0 && s.start == 0 && s.rest == 0,
        3 => s.write < 2 && s.page == 0 && s.high == 0 && s.start == 0 && s.rest == 0,
        4 => s.write < 2 && s.page == 0 && s.start == 0 && s.rest == 0,
        5 => s.write < 2 && s.page == 0 && s.high == 0 && s.rest == 0,
        6 => s.write == 0 && s.page == 0 && s.high == 0,
        7 => s.write == 0 && s.page == 0 && s.high == 0 && s.start == 0,
        _ => false,
    }
}

fn output_in_form(s: State) -> bool
    ensures { result ≡ output_in_form s.output s.passed s.next s.count }
{
    match s.output {
        0 | 1 => s.passed <= s.output && s.next == 0 && s.count == 0,
        2 | 3 => s.passed == 0,
        _ => false,
    }
}

// Whether the truth values of a state that stand in no tag's group are 0 or 1.
fn flags_in_form(s: State) -> bool
    ensures { result ≡ flags_in_form s }
{
    s.collision < 2 && s.on < 2 && s.met1 < 2 && s.met2 < 2 && s.met3 < 2 && s.met4 < 2
}

// Whether a state is in form, and so is that of the target that it says: tags exist, truth values are 0 or 1,
// and numbers that are not in use are 0. With the point first the compiler keeps fewer numbers at hand.
pub(crate) fn in_form(s: State) -> bool
    ensures { result ≡ in_form s }
{
    point_in_form(s) && flags_in_form(s) && output_in_form(s) && command_in_form(s)
}
