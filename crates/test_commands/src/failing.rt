// Which calls of which object fail.

/// An object that the program is given.
#[derive(Clone, Copy)]
pub enum Object {
    Store,
    Out,
    Err,
    Net,
}

impl Object {
    /// The object of this name, if there is one.
    pub fn named(name: &str) -> Option<Object> {
        match name {
            "store" => Some(Object::Store),
            "out" => Some(Object::Out),
            "err" => Some(Object::Err),
            "net" => Some(Object::Net),
            _ => None,
        }
    }
}

/// The call of each object that fails, counted from 1; 0 is none.
#[derive(Clone, Copy)]
pub struct Fails {
    pub store: u64,
    pub out: u64,
    pub err: u64,
    pub net: u64,
}

impl Fails {
    /// No call fails.
    pub fn none() -> Fails {
        Fails {
            store: 0,
            out: 0,
            err: 0,
            net: 0,
        }
    }

    /// This call of this object fails.
    pub fn at(object: Object, call: u64) -> Fails {
        let none = Fails::none();
        match object {
            Object::Store => Fails {
                store: call,
                ..none
            },
            Object::Out => Fails { out: call, ..none },
            Object::Err => Fails { err: call, ..none },
            Object::Net => Fails { net: call, ..none },
        }
    }
}
