// A session run against a fresh target, for C; the comparison and the benchmark declare it.
#![tactic(auto)]

ghost use Rattle.std.specs.Prelude.{◌≡◌};
ghost use Rattle.c2_run.specs.Run.{run_answer, run_flash};

use c2_run::Run;
use settings::Settings;

#[unsafe(no_mangle)]
pub extern "C" fn c2_program(
    t: Settings,
    first: u32,
    image: &[u8],
    flash: &mut [u8],
    delays: &[u8],
    budget: usize,
) -> Run
    ensures value { result ≡ run_answer t first image.now flash.old delays.now budget }
    ensures flash_after { flash.new ≡ run_flash t first image.now flash.old delays.now budget }
{
    c2_run::c2_program(t, first, image, flash, delays, budget)
}
