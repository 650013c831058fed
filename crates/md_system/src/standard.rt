// The numbers 0 to 2, which are standard input, standard output and standard error.
use std::fs::{File, OpenOptions};
use std::os::fd::{AsRawFd, IntoRawFd, RawFd};
use std::rt::Files;
use std::{fs, io};

/// Which of the program's streams were open when it started.
#[derive(Clone, Copy, Debug, PartialEq, Eq)]
pub struct Standard {
    pub output: bool,
    pub error: bool,
}

/// Takes those of the numbers 0 to 2 that are free, so that no file that is opened later becomes a stream of the
/// program, and answers which streams were open. A number is free where the program was started with that stream closed.
pub fn take_free_numbers<R: Files<File = File>>(files: &R) -> Standard {
    let mut standard = Standard {
        output: true,
        error: true,
    };
    for _ in 0..4 {
        let Ok(file) = open_nothing(files) else {
            return standard;
        };
        match file.as_raw_fd() {
            0 => {}
            1 => standard.output = false,
            2 => standard.error = false,
            _ => return standard,
        }
        // It stays open to the end.
        let _taken: RawFd = file.into_raw_fd();
    }
    standard
}

/// A file that is no file of anyone's. The system gives it the first number that is free.
fn open_nothing<R: Files<File = File>>(files: &R) -> io::Result<File> {
    let mut options = OpenOptions::new();
    options.read(true);
    options.write(true);
    match options.open(files, "/dev/null") {
        Ok(file) => Ok(file),
        // Where there are no devices, the folder of all takes the number as well.
        Err(_) => fs::open(files, "/"),
    }
}
