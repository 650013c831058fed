// A case: what the program is given, and what has to come of it.
use crate::connections::Connections;
use crate::failing::{Fails, Object};
use std::alloc::{AllocError, Global};
use test_cases::unescaped;

/// A file by its name.
#[derive(Drop)]
pub struct File {
    pub name: String,
    pub bytes: Vec<u8>,
}

/// What the program is given, and what has to come of it.
#[derive(Drop)]
pub struct Case {
    pub name: String,
    pub words: Vec<String>,
    /// The files that are there.
    pub files: Vec<File>,
    /// The calls that fail.
    pub fails: Fails,
    /// The objects whose calls are to fail in turn, one in each further run.
    pub each: Vec<Object>,
    /// The most bytes that one call takes or gives.
    pub most: usize,
    pub status: u64,
    pub out: Vec<u8>,
    pub err: Vec<u8>,
    /// The files that have to be there in the end.
    pub left: Vec<File>,
    pub connections: Connections,
}

impl Case {
    /// A case that gives nothing and expects nothing.
    pub fn new(alloc: Global) -> Case {
        Case {
            name: String::new(alloc),
            words: Vec::new(alloc),
            files: Vec::new(alloc),
            fails: Fails::none(),
            each: Vec::new(alloc),
            most: 4096,
            status: 0,
            out: Vec::new(alloc),
            err: Vec::new(alloc),
            left: Vec::new(alloc),
            connections: Connections::new(alloc),
        }
    }

    /// Takes one line more: a key, a space and its value.
    pub fn add(&mut self, alloc: Global, line: &str) -> Result<(), AllocError> {
        let (key, value) = halves(line);
        match key {
            "case" => self.name = String::from_str(alloc, value)?,
            "word" => {
                let word = String::from_str(alloc, value)?;
                self.words.push(word)?;
            }
            "file" => {
                let file = file_of(alloc, value)?;
                self.files.push(file)?;
            }
            "copies" => {
                let file = copies_of(alloc, value)?;
                self.files.push(file)?;
            }
            "left" => {
                let file = file_of(alloc, value)?;
                self.left.push(file)?;
            }
            "each-fails" => self.add_object(value)?,
            "out" => self.out = unescaped(alloc, value)?,
            "err" => self.err = unescaped(alloc, value)?,
            _ => {
                self.set(key, number_of(value));
                self.connections.add(alloc, key, value)?;
            }
        }
        Ok(())
    }

    /// The calls of one object more are to fail in turn.
    fn add_object(&mut self, name: &str) -> Result<(), AllocError> {
        if let Some(object) = Object::named(name) {
            self.each.push(object)?;
        }
        Ok(())
    }

    /// Sets a number.
    fn set(&mut self, key: &str, number: u64) {
        match key {
            "status" => self.status = number,
            "store-fails" => self.fails.store = number,
            "out-fails" => self.fails.out = number,
            "err-fails" => self.fails.err = number,
            "net-fails" => self.fails.net = number,
            "most" => self.most = number as usize,
            _ => {}
        }
    }
}

/// A name, a space and the bytes.
fn file_of(alloc: Global, value: &str) -> Result<File, AllocError> {
    let (name, bytes) = halves(value);
    Ok(File {
        name: String::from_str(alloc, name)?,
        bytes: unescaped(alloc, bytes)?,
    })
}

/// A name, a space, a number, a space, and bytes that the file has so many times.
fn copies_of(alloc: Global, value: &str) -> Result<File, AllocError> {
    let (name, value) = halves(value);
    let (count, bytes) = halves(value);
    let bytes = unescaped(alloc, bytes)?;
    let mut copies = Vec::new(alloc);
    for _turn in 0..number_of(count) {
        copies.extend_from_slice(bytes.as_slice())?;
    }
    Ok(File {
        name: String::from_str(alloc, name)?,
        bytes: copies,
    })
}

/// What stands on the two sides of the first space.
pub fn halves(value: &str) -> (&str, &str) {
    match value.split_once(' ') {
        Some(halves) => halves,
        None => (value, ""),
    }
}

/// The number that a text is, or 0.
pub fn number_of(text: &str) -> u64 {
    match text.parse() {
        Ok(number) => number,
        Err(_) => 0,
    }
}
