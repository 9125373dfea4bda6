//! Files, where there are some.
use std::io;

/// Where saved logs are kept.
pub trait Files {
    /// The bytes of a file.
    fn read(&mut self, name: &str) -> io::Result<Vec<u8>>;

    /// Writes a file.
    fn write(&mut self, name: &str, bytes: &[u8]) -> io::Result<()>;
}

/// Where there are no files.
#[derive(Clone, Copy)]
pub struct NoFiles;

impl Files for NoFiles {
    fn read(&mut self, _name: &str) -> io::Result<Vec<u8>> {
        Err(io::Error::from(io::ErrorKind::NotFound))
    }

    fn write(&mut self, _name: &str, _bytes: &[u8]) -> io::Result<()> {
        Err(io::Error::from(io::ErrorKind::NotFound))
    }
}
