//! The site's file on this machine.

use crate::fault::{ReviewFault, failed_by};
use disk_file::DiskFile;
use std::fs::{File, OpenOptions, TryLockError};
use std::io::ErrorKind;
use std::rt::Files;

/// The site's file, which no other program has, for reading and writing. It is given back at the program's end.
pub(crate) fn open_locked<R: Files<File = File>>(
    rt: &R,
    path: &str,
) -> Result<DiskFile, ReviewFault> {
    let file = match OpenOptions::new().read(true).write(true).open(rt, path) {
        Ok(file) => file,
        Err(error) => return Err(failed_by(error.kind(), ReviewFault::SiteFailed)),
    };
    match file.try_lock() {
        Ok(()) => {}
        Err(TryLockError::WouldBlock) => return Err(ReviewFault::InUse),
        Err(TryLockError::Error(_)) => return Err(ReviewFault::SiteFailed),
    }
    match DiskFile::new(file, false) {
        Ok(file) => Ok(file),
        Err(error) => Err(failed_by(error.kind(), ReviewFault::SiteFailed)),
    }
}
