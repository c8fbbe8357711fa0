ghost use Rattle.std.specs.Prelude.{◌≡◌};
ghost use Rattle.dill_ws.specs.Frames.{masked_from};

/// Masks a payload in place, or takes its mask away: the same (RFC 6455, section 5.3).
pub fn mask(key: [u8; 4], bytes: &mut [u8])
    ensures { bytes.new ≡ masked_from 0 key bytes.old }
{
    for i in 0..bytes.len() {
        bytes[i] ^= key[i % 4];
    }
}
