ghost use Rattle.std.specs.Prelude.{◌≡◌};
ghost use Rattle.dill_ws.specs.Handshakes.{accept_text};

use base64::engine::general_purpose::STANDARD;
use sha1::Sha1;

/// What RFC 6455, section 1.3, puts behind the key.
const SUFFIX: &[u8; 36] = b"258EAFA5-E914-47DA-95CA-C5AB0DC85B11";

/// The value by which a server shows that it read the key of the client's head.
pub fn accept_of(key: &[u8; 24]) -> [u8; 28]
    ensures { result ≡ accept_text key.now }
{
    let mut hasher = Sha1::new();
    hasher.update(key);
    hasher.update(SUFFIX);
    let digest = hasher.finalize();
    let mut text = [0; 28];
    let _written = STANDARD.encode_slice(&digest, &mut text);
    text
}
