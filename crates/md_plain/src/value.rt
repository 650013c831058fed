// Values, and how two of them are compared.
ghost use Rattle.std.specs.Prelude.{◌≡◌, ◌+◌, true, false, IfOk};
ghost use Rattle.md_hlds.specs.Value.{value_count, one_pair, below_pair, compared, all_compared, Number, Literal};
ghost use Rattle.md_plain.specs.Values.{value_of, values_of, compared_of};

use md_base::NoMemory;

/// A value: an integer, a text, a functor's name and its values, or a procedure and the values that it has captured.
#[cycle(values)]
#[derive(Clone, Copy)]
pub enum Value<'a> {
    Number(i64),
    Literal(&'a [u8]),
    Built(&'a [u8], &'a Parts<'a>),
    Closure(u64, &'a Parts<'a>),
}

/// Values one after the other.
#[cycle(values)]
#[derive(Clone, Copy)]
pub enum Parts<'a> {
    Nothing,
    Also(Value<'a>, &'a Parts<'a>),
}

/// The values of a clause's variables, by their places.
pub type Env<'a> = &'a [Option<Value<'a>>];

/// How many pairs of nodes a comparison has looked at, and whether none differs.
#[derive(Clone, Copy)]
pub struct Compared {
    pub pairs: u64,
    pub equal: bool,
}

/// One more, or want of memory where a counter would pass its end.
pub fn next(counter: u64) -> Result<u64, NoMemory>
    ensures { IfOk result (λ more. more ≡ counter + 1) }
{
    plus(counter, 1)
}

/// The sum, or want of memory where a counter would pass its end.
pub fn plus(counter: u64, more: u64) -> Result<u64, NoMemory>
    ensures { IfOk result (λ sum. sum ≡ counter + more) }
{
    match counter.checked_add(more) {
        Some(sum) => Ok(sum),
        None => Err(NoMemory),
    }
}

/// How many parts there are.
pub fn count(parts: &Parts) -> Result<u64, NoMemory>
    ensures { IfOk result (λ count. count ≡ value_count (values_of parts.now)) }
{
    match parts {
        Parts::Nothing => Ok(0),
        Parts::Also(_, rest) => next(count(rest)?),
    }
}

/// Compares two values, node by node up to the first pair that differs.
#[cycle(compare)]
pub fn compare(v: &Value, w: &Value) -> Result<Compared, NoMemory>
    ensures { IfOk result (λ c. compared_of c ≡ compared (value_of v.now) (value_of w.now)) }
{
    match v {
        Value::Number(m) => Ok(compared_number(*m, w)),
        Value::Literal(a) => Ok(compared_literal(a, w)),
        Value::Built(f, xs) => match w {
            Value::Built(g, ys) => compare_below(*f == *g && count(xs)? == count(ys)?, xs, ys),
            Value::Number(_) => Ok(different()),
            Value::Literal(_) => Ok(different()),
            Value::Closure(..) => Ok(different()),
        },
        Value::Closure(p, xs) => match w {
            Value::Closure(q, ys) => compare_below(*p == *q && count(xs)? == count(ys)?, xs, ys),
            Value::Number(_) => Ok(different()),
            Value::Literal(_) => Ok(different()),
            Value::Built(..) => Ok(different()),
        },
    }
}

/// A pair of nodes that are the same or not, and then the pairs below it.
#[cycle(compare)]
fn compare_below(same: bool, xs: &Parts, ys: &Parts) -> Result<Compared, NoMemory>
    ensures { IfOk result (λ c. compared_of c ≡ below_pair same (all_compared (values_of xs.now) (values_of ys.now))) }
{
    if !same {
        return Ok(different());
    }
    let rest = compare_all(xs, ys)?;
    Ok(Compared {
        pairs: next(rest.pairs)?,
        equal: rest.equal,
    })
}

#[cycle(compare)]
fn compare_all(xs: &Parts, ys: &Parts) -> Result<Compared, NoMemory>
    ensures { IfOk result (λ c. compared_of c ≡ all_compared (values_of xs.now) (values_of ys.now)) }
{
    match xs {
        Parts::Nothing => Ok(none_compared()),
        Parts::Also(v, vs) => match ys {
            Parts::Nothing => Ok(none_compared()),
            Parts::Also(w, ws) => {
                let first = compare(v, w)?;
                if !first.equal {
                    return Ok(first);
                }
                let rest = compare_all(vs, ws)?;
                Ok(Compared {
                    pairs: plus(first.pairs, rest.pairs)?,
                    equal: rest.equal,
                })
            }
        },
    }
}

/// No pair.
fn none_compared() -> Compared
    ensures { compared_of result ≡ record { pairs = 0; equal = true } }
{
    Compared {
        pairs: 0,
        equal: true,
    }
}

/// One pair, which is the same or not.
fn one_pair(same: bool) -> Compared
    ensures { compared_of result ≡ one_pair same }
{
    Compared {
        pairs: 1,
        equal: same,
    }
}

/// One pair, which differs.
fn different() -> Compared
    ensures { compared_of result ≡ one_pair false }
{
    one_pair(false)
}

fn compared_number(m: i64, w: &Value) -> Compared
    ensures { compared_of result ≡ compared (Number m) (value_of w.now) }
{
    match w {
        Value::Number(n) => one_pair(m == *n),
        Value::Literal(_) => different(),
        Value::Built(..) => different(),
        Value::Closure(..) => different(),
    }
}

fn compared_literal(a: &[u8], w: &Value) -> Compared
    ensures { compared_of result ≡ compared (Literal a.now) (value_of w.now) }
{
    match w {
        Value::Literal(b) => one_pair(a == *b),
        Value::Number(_) => different(),
        Value::Built(..) => different(),
        Value::Closure(..) => different(),
    }
}
