// Bytes that are written piece by piece.
ghost use Rattle.ug_types.specs.Ends.{Puts};

use std::io::Write;
use ug_types::Put;

/// Writes all of the bytes, in as many pieces as the writer takes.
pub fn put_all<W: Write>(writer: &mut W, bytes: &[u8]) -> Put
    ensures { Puts (W.contents writer.old) (W.contents writer.new) bytes.now result }
{
    let mut at = 0;
    while at < bytes.len() {
        match writer.write(&bytes[at..]) {
            Ok(n) => {
                if n == 0 {
                    return Put::Failed;
                }
                at += n;
            }
            Err(_) => return Put::Failed,
        }
    }
    Put::Done
}
