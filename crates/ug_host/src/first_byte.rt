// The first byte of a file that is held open.
use std::io::{Read, Seek, SeekFrom, Write};
use ug_files::{FileFault, read_piece};

/// The first byte of a held file, read anew from its start.
pub fn read_first<F: Read + Seek>(file: &mut F) -> Result<Option<u8>, FileFault> {
    let mut piece = [0u8; 8];
    file.seek(SeekFrom::Start(0))?;
    let count = read_piece(file, &mut piece)?;
    Ok(if count == 0 { None } else { Some(piece[0]) })
}

/// Writes one byte at a held file's start, in one call.
pub fn write_byte<F: Write + Seek>(file: &mut F, byte: u8) -> Result<(), FileFault> {
    file.seek(SeekFrom::Start(0))?;
    let count = file.write(&[byte])?;
    if count == 1 {
        Ok(())
    } else {
        Err(FileFault::Failed)
    }
}
