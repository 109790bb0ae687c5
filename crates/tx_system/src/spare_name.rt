// The name of a new file.
use std::alloc::{AllocError, Global};
use std::io::{self, ErrorKind};
use std::str;

/// How many names there are in a folder: the number has four digits.
pub(crate) const SPARE_NAMES: usize = 10_000;

/// A short name in a folder: `.tmx-` and a number of four digits, at first `0000`. The folder's name ends in a
/// slash.
#[derive(Drop)]
pub(crate) struct SpareName {
    bytes: Vec<u8>,
}

impl SpareName {
    pub(crate) fn in_folder(alloc: Global, folder: &str) -> Result<SpareName, AllocError> {
        let mut bytes = Vec::from_slice(alloc, folder.as_bytes())?;
        bytes.extend_from_slice(b".tmx-0000")?;
        Ok(SpareName { bytes })
    }

    /// The name with the next number, or with `0000` after the last one. It takes no memory.
    pub(crate) fn advance(&mut self) {
        for digit in self.bytes.iter_mut().rev().take(4) {
            if *digit < b'9' {
                *digit += 1;
                return;
            }
            *digit = b'0';
        }
    }

    pub(crate) fn path(&self) -> io::Result<&str> {
        match str::from_utf8(&self.bytes) {
            Ok(path) => Ok(path),
            Err(_) => Err(io::Error::from(ErrorKind::InvalidFilename)),
        }
    }
}
