// A case: its lines, and whether what was found is what they want.
use crate::escape::unescaped;
use std::alloc::{AllocError, Global};

/// A line of a case: a key, a space and a text.
#[derive(Drop)]
pub struct Field {
    pub key: String,
    /// The text as it stands.
    pub text: String,
    /// The bytes that it is written for: `\n`, `\t`, `\\` and `\xHH` stand for one byte.
    pub bytes: Vec<u8>,
}

impl Field {
    /// The field of a line.
    pub fn new(alloc: Global, line: &str) -> Result<Field, AllocError> {
        let (key, text) = match line.split_once(' ') {
            Some(halves) => halves,
            None => (line, ""),
        };
        Ok(Field {
            key: String::from_str(alloc, key)?,
            text: String::from_str(alloc, text)?,
            bytes: unescaped(alloc, text)?,
        })
    }
}

/// The lines of a case, in order. `case` has its name, and each `want` a line that has to come of it.
#[derive(Drop)]
pub struct Case {
    fields: Vec<Field>,
}

impl Case {
    /// A case without lines.
    pub fn new(alloc: Global) -> Case {
        Case {
            fields: Vec::new(alloc),
        }
    }

    /// Takes one line more.
    pub fn add(&mut self, alloc: Global, line: &str) -> Result<(), AllocError> {
        let field = Field::new(alloc, line)?;
        self.fields.push(field)?;
        Ok(())
    }

    /// The lines, in order.
    pub fn fields(&self) -> &[Field] {
        self.fields.as_slice()
    }

    /// The text of the first line of this key, or none.
    pub fn text(&self, key: &str) -> &str {
        match self.fields.iter().find(|field| field.key.as_str() == key) {
            Some(field) => field.text.as_str(),
            None => "",
        }
    }

    /// The bytes of the first line of this key, or none.
    pub fn bytes(&self, key: &str) -> &[u8] {
        match self.fields.iter().find(|field| field.key.as_str() == key) {
            Some(field) => field.bytes.as_slice(),
            None => &[],
        }
    }

    /// The number that the first line of this key has, or 0.
    pub fn number(&self, key: &str) -> u64 {
        match self.text(key).parse() {
            Ok(number) => number,
            Err(_) => 0,
        }
    }

    /// `ok` and the case's name where these are the wanted lines, and otherwise `FAILED`, its name and the lines.
    pub fn verdict(&self, alloc: Global, found: &str) -> Result<String, AllocError> {
        let name = self.text("case");
        if self.wanted(alloc)?.as_str() == found {
            format!(in alloc; "ok {name}")
        } else {
            format!(in alloc; "FAILED {name}:\n{found}")
        }
    }

    /// The wanted lines, each with its end.
    fn wanted(&self, alloc: Global) -> Result<String, AllocError> {
        let mut wanted = String::new(alloc);
        for field in self
            .fields
            .iter()
            .filter(|field| field.key.as_str() == "want")
        {
            wanted.push_str(field.text.as_str())?;
            wanted.push('\n')?;
        }
        Ok(wanted)
    }
}
