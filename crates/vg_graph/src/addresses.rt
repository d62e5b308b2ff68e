//! What is true of every link-layer address.
ghost use Rattle.std.specs.Prelude.{◌≡◌, length};
ghost use Rattle.vg_model.specs.Valid.{IsMac, AreBytes};

use vg_model::Mac;
use vg_model::lists::know_bytes;

/// An address has six bytes.
pub fn know_mac(mac: &Mac)
    ensures { IsMac mac.now }
{
    know_six(&mac.0);
}

// Six bytes are six, and each is below 256.
fn know_six(bytes: &[u8; 6])
    ensures six { length bytes.now ≡ 6 }
    ensures bytes { AreBytes bytes.now }
{
    know_bytes(bytes);
}
