// The seed of the daemon's random words.
use std::io;
use std::random::RandomSource;

/// Thirty-two bytes from the system's generator of random numbers, as getentropy(3) gives them. What they are is told by the machine
/// alone. It fails where the system has no such generator.
pub fn read_seed<R: RandomSource>(rt: &R) -> io::Result<[u8; 32]> {
    let mut seed = [0; 32];
    rt.fill_bytes(&mut seed)?;
    Ok(seed)
}
