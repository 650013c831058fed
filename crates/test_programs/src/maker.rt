// A text in the making.

use md_base::NoMemory;
use std::alloc::Global;

/// What the programs of a family have in common, and what their clauses are made of.
#[derive(Clone, Copy)]
pub struct Family<'a> {
    /// What stands before the predicates that are made.
    pub head: &'a str,
    /// Goals that read the variable `@` and bind `#`; names that end in `~` are their own, and `^` is a predicate.
    pub goals: [&'a str; 16],
    /// The names of the predicates. The last one stands behind those that are made, and calls none.
    pub names: [&'a str; 5],
    pub last: &'a str,
    /// One callee in so many, at least one, may be any predicate; the others come after their caller.
    pub any: u32,
}

/// A text in the making, the number of its last predicate, and a number that looks random.
#[derive(Drop)]
struct Maker<'a> {
    family: &'a Family<'a>,
    text: Vec<u8>,
    owner: u32,
    state: u32,
}

/// The text of a program of four predicates and the last one. `NoMemory` where memory is refused.
pub fn made(alloc: Global, family: &Family<'_>, state: u32) -> Result<Vec<u8>, NoMemory> {
    let mut maker = Maker {
        family,
        text: Vec::new(alloc),
        owner: 0,
        state,
    };
    maker.put(family.head)?;
    maker.put_predicates()?;
    maker.put(family.last)?;
    Ok(maker.text)
}

impl<'a> Maker<'a> {
    /// A number below this many.
    fn pick(&mut self, many: u32) -> u32 {
        self.state = self
            .state
            .wrapping_mul(1_664_525)
            .wrapping_add(1_013_904_223);
        (self.state >> 16).checked_rem(many).unwrap_or(0)
    }

    fn put(&mut self, text: &str) -> Result<(), NoMemory> {
        self.text.extend_from_slice(text.as_bytes())?;
        Ok(())
    }

    /// A letter and the last digit of a number.
    fn put_name(&mut self, letter: u8, number: u32) -> Result<(), NoMemory> {
        self.text.push(letter)?;
        self.text.push(b'0' + (number % 10) as u8)?;
        Ok(())
    }

    /// The name of a predicate.
    fn put_predicate_name(&mut self, number: u32) -> Result<(), NoMemory> {
        let name = self.family.names[number.min(4) as usize];
        self.put(name)
    }

    fn put_predicates(&mut self) -> Result<(), NoMemory> {
        for number in 0..4u32 {
            let goals = self.pick(4).wrapping_add(1);
            self.owner = number;
            self.put_predicate(number, goals)?;
        }
        Ok(())
    }

    /// A predicate whose body is a conjunction of so many goals.
    fn put_predicate(&mut self, number: u32, goals: u32) -> Result<(), NoMemory> {
        self.put(":- pred ")?;
        self.put_predicate_name(number)?;
        self.put("(int::in, int::out) is nondet.\n")?;
        self.put_predicate_name(number)?;
        self.put("(V0, ")?;
        self.put_name(b'V', goals)?;
        self.put(") :- ")?;
        self.put_goals(goals)?;
        self.put(".\n")
    }

    fn put_goals(&mut self, goals: u32) -> Result<(), NoMemory> {
        for place in 0..goals {
            if place > 0 {
                self.put(", ")?;
            }
            self.put_some_goal(place)?;
        }
        Ok(())
    }

    /// One of the goals, between the variables of this place and of the next.
    fn put_some_goal(&mut self, place: u32) -> Result<(), NoMemory> {
        let picked = self.pick(16).min(15) as usize;
        let goal = self.family.goals[picked];
        self.put_goal(goal, place)
    }

    /// This goal, between the same variables.
    fn put_goal(&mut self, goal: &str, place: u32) -> Result<(), NoMemory> {
        for byte in goal.as_bytes() {
            self.put_byte(*byte, place)?;
        }
        Ok(())
    }

    fn put_byte(&mut self, byte: u8, place: u32) -> Result<(), NoMemory> {
        match byte {
            b'@' => self.put_name(b'V', place),
            b'#' => self.put_name(b'V', place.wrapping_add(1)),
            b'~' => self.put_name(b'_', place),
            b'^' => {
                let callee = self.pick_callee();
                self.put_predicate_name(callee)
            }
            _ => {
                self.text.push(byte)?;
                Ok(())
            }
        }
    }

    /// One of the predicates that come after the one in the making, or now and again any.
    fn pick_callee(&mut self) -> u32 {
        if self.pick(self.family.any) == 0 {
            return self.pick(5);
        }
        let beyond = self.pick(3);
        self.owner.wrapping_add(1).wrapping_add(beyond).min(4)
    }
}
