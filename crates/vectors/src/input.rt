// Numbers of the file, little-endian.
use std::fs::File;
use std::io::{ErrorKind, Read};

// As many bytes as there is room for. Where the file ends before that, what is lacking stays as it was.
pub fn fill(file: &mut File, room: &mut [u8]) -> std::io::Result<()> {
    match file.read_exact(room) {
        Err(e) if e.kind() == ErrorKind::UnexpectedEof => Ok(()),
        result => result,
    }
}

fn bytes<const N: usize>(file: &mut File) -> std::io::Result<[u8; N]> {
    let mut bytes = [0u8; N];
    fill(file, &mut bytes)?;
    Ok(bytes)
}

pub fn byte(file: &mut File) -> std::io::Result<u32> {
    let [b] = bytes::<1>(file)?;
    Ok(u32::from(b))
}

pub fn u16le(file: &mut File) -> std::io::Result<u32> {
    Ok(u32::from(u16::from_le_bytes(bytes::<2>(file)?)))
}

pub fn u32le(file: &mut File) -> std::io::Result<u32> {
    Ok(u32::from_le_bytes(bytes::<4>(file)?))
}

// Whether something stands behind the last record.
pub fn goes_on(file: &mut File) -> std::io::Result<bool> {
    let mut bytes = [0u8; 1];
    Ok(file.read(&mut bytes)? != 0)
}
