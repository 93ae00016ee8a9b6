// The hash of a device's parts.
ghost use Rattle.std.specs.Prelude.{◌≡◌};
ghost use Rattle.ug_record.specs.Hash.{hash_of};

use base64::engine::general_purpose::STANDARD;
use sha2::{Digest, Sha256};
use ug_lines::four_digits;

/// The SHA-256 digest (FIPS 180-4) of the name, the vendor and the product as four hexadecimal digits each, the
/// serial number and the descriptors, in base64 (RFC 4648, section 4) with padding.
#[tactic(auto, unfolding(crate::specs::Hash::hash_of))]
pub fn device_hash(
    name: &[u8],
    vendor: u16,
    product: u16,
    serial: &[u8],
    descriptors: &[u8],
) -> [u8; 44]
    ensures { result ≡ hash_of name.now vendor product serial.now descriptors.now }
{
    let mut hasher = Sha256::new();
    hasher.update(name);
    hasher.update(four_digits(vendor).as_slice());
    hasher.update(four_digits(product).as_slice());
    hasher.update(serial);
    hasher.update(descriptors);
    let digest = hasher.finalize();
    let mut text = [0; 44];
    let _ = STANDARD.encode_slice(digest.as_slice(), text.as_mut_slice());
    text
}
