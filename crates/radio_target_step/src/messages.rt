// What a message does that the module's point takes.
ghost use Rattle.std.specs.Prelude.{◌≡◌, ◌≤◌, length};
ghost use Rattle.radio_command.specs.Command.{built};
ghost use Rattle.radio_target.specs.Model.{response, message_refusal};
ghost use Rattle.radio_target.specs.State.{module_state, radio_taken, radio_replied, replied_with, reply_put};

use radio_command::{CommandName, RadioCommand, build};
use radio_deeds::commanded;
use radio_flash::{PAGE_BYTES, change, put_page};
use radio_target::{ModulePoint, RadioReplied};

const INF_OK: RadioCommand = RadioCommand {
    name: CommandName::InfOk,
    p0: 0,
    p1: 0,
    p2: 0,
};

// What a message that is taken gives back: the length of the reply, and the state of the next point.
fn taken(reply: u32, p: ModulePoint) -> RadioReplied
    ensures { result ≡ replied_with 0 reply (module_state p) }
{
    RadioReplied {
        number: 0,
        reply,
        target: p.into(),
    }
}

// Writes a command.
fn answer(c: RadioCommand, reply: &mut [u8])
    requires { 256 ≤ length reply.old }
    ensures { reply.new ≡ reply_put (built c) reply.old }
{
    reply[..8].copy_from_slice(&build(c));
}

// A command changes the flash and is answered. Data of a page set it, the last one is answered. Data for XRAM are
// dropped. A page that is to be sent is the reply. `as`, for a usize has no `From` of a u32.
pub(crate) fn take(p: ModulePoint, flash: &mut [u8], m: &[u8], reply: &mut [u8]) -> RadioReplied
    requires { message_refusal p flash.old m.now (length reply.old) ≡ 0 }
    ensures value { result ≡ radio_replied (radio_taken (response p flash.old m.now)) }
    ensures flash_after { flash.new ≡ (response p flash.old m.now).flash }
    ensures reply_after { reply.new ≡ reply_put (response p flash.old m.now).reply reply.old }
{
    match p {
        ModulePoint::Waits => {
            let d = commanded(m, flash);
            change(d.change, flash);
            answer(d.answer, reply);
            taken(8, d.point)
        }
        ModulePoint::Takes { page, left } => {
            put_page(page as usize, m, flash);
            let (page, left) = (page + 1, left - 1);
            if left == 0 {
                answer(INF_OK, reply);
                taken(8, ModulePoint::Waits)
            } else {
                taken(0, ModulePoint::Takes { page, left })
            }
        }
        ModulePoint::Loads { left: 1 } => taken(0, ModulePoint::Waits),
        ModulePoint::Loads { left } => taken(0, ModulePoint::Loads { left: left - 1 }),
        ModulePoint::Sends { page, left } => {
            let start = PAGE_BYTES * page as usize;
            reply[..PAGE_BYTES].copy_from_slice(&flash[start..start + PAGE_BYTES]);
            let (page, left) = (page + 1, left - 1);
            if left == 0 {
                taken(256, ModulePoint::Waits)
            } else {
                taken(256, ModulePoint::Sends { page, left })
            }
        }
    }
}
