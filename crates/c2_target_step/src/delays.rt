// The target's delays, taken from the list in order.
#![tactic(auto, using(std::proofs::lemmas::Bool::Decides::nat_tests), unfolding(c2_target::specs::Delays::list_place, c2_target::specs::Delays::delay, c2_target::specs::Delays::next_place))]

ghost use Rattle.std.specs.Prelude.{◌≡◌};
ghost use Rattle.c2_target.specs.Delays.{delay, next_place};

// The delay at a place of the list, 0 where the list is empty.
pub(crate) fn delay(delays: &[u8], place: usize) -> usize
    ensures { result ≡ delay delays.now place }
{
    match delays.get(place).or(delays.first()) {
        Some(delay) => usize::from(*delay),
        None => 0,
    }
}

// The place of the list after this one.
pub(crate) fn next_place(delays: &[u8], place: usize) -> usize
    ensures { result ≡ next_place delays.now place }
{
    if place < delays.len() { place + 1 } else { 1 }
}
