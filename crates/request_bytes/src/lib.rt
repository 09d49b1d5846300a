// The byte form of a request, written: document 01, One call, from the top, second paragraph.
#![tactic(auto)]

ghost use Rattle.std.specs.Prelude.{◌≡◌, length};
ghost use Rattle.request_bytes.specs.Writing.{is_written, room_after};

use room::Room;
use types::Request;

mod write;

// There is room for just the bytes, and on two PLLs nothing stands in the third part.
#[tactic(auto, unfolding(crate::specs::Writing::is_written))]
fn is_written(room: usize, three: bool, request: Request) -> bool
    ensures { result ≡ is_written three request room }
{
    room == request::size_of(three) && (three || hertz::is_no_part(request.plls[2]))
}

// The bytes of a request, where there is room for just them; on two PLLs nothing may stand in the third part. Else false, and nothing is stored.
#[tactic(auto, using(crate::proofs::Writing::writing))]
pub fn write_request(request: Request, three: bool, out: &mut [u8]) -> bool
    ensures value { result ≡ is_written three request (length out.old) }
    ensures out_after { out.new ≡ room_after three request out.old }
{
    if !is_written(out.len(), three, request) {
        return false;
    }
    let mut room = Room { items: out, at: 0 };
    write::request(&mut room, three, request);
    true
}
