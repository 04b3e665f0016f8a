// The frame of a later floor is always 18 bytes, so it is made without taking memory.
ghost use Rattle.std.specs.Prelude.{◌≡◌};
ghost use Rattle.jf_frame.specs.Framing.{IsFrame};
ghost use Rattle.jf_codec.specs.declared.format.Format.{Format};
ghost use Rattle.jf_payload.specs.Spelling.{kind_of, record_bytes};
ghost use Rattle.jf_payload.specs.declared.records.Record.TheVariants as «record»;

use crate::kinds::{CLOSED, FLOOR};

/// The frame of a later floor, which is the same in both formats.
#[tactic(auto, unfolding(crate::specs::Spelling::record_bytes, jf_path::specs::Numbers::eight_bytes))]
pub fn encode_floor(floor: u64) -> [u8; 18]
    ensures { (fmt : Format) → IsFrame result (kind_of fmt («record».Floor floor)) (record_bytes fmt («record».Floor floor)) }
{
    let f = floor.to_be_bytes();
    [
        FLOOR, 0, 0, 0, 0, 0, 0, 0, 8, f[0], f[1], f[2], f[3], f[4], f[5], f[6], f[7], CLOSED,
    ]
}
