// Numbers of 32 bits, and addresses.
ghost use Rattle.std.specs.Prelude.{◌≡◌, ◌<◌, ◌+◌, ◌*◌, IfOk, OnOk};
ghost use Rattle.md_code.specs.Tables as tables;

use md_base::NoMemory;

/// Where the newest choice goes on.
pub const POP: u32 = 0;

/// Where an activation fails.
pub const FAIL: u32 = 1;

/// Where an exception leaves an activation.
pub const UNWIND: u32 = 2;

/// The sum of two numbers.
pub fn plus(first: u32, second: u32) -> Result<u32, NoMemory>
    ensures { IfOk result (λ sum. sum ≡ first + second) }
{
    first.checked_add(second).ok_or(NoMemory)
}

/// A number as one of 32 bits.
pub fn small(number: usize) -> Result<u32, NoMemory>
    ensures { IfOk result (λ small. small ≡ number) }
{
    u32::try_from(number).map_err(|_| NoMemory)
}

/// So many things have numbers of 32 bits, if this is `Ok`.
pub fn are_few(count: usize) -> Result<(), NoMemory>
    ensures { OnOk result (count < 4294967296) }
{
    small(count)?;
    Ok(())
}

/// The number of the goal behind this one in the text.
pub fn next_goal(number: u32) -> Result<u32, NoMemory>
    ensures next { IfOk result (λ next. next ≡ number + 1) }
    ensures small { IfOk result (λ next. next < 4294967295) }
{
    let next = plus(number, 1)?;
    if next == u32::MAX {
        return Err(NoMemory);
    }
    Ok(next)
}

/// The number of a goal six times, and so much more.
fn address(goal: u32, part: u32) -> Result<u32, NoMemory>
    ensures { IfOk result (λ at. at ≡ goal * 6 + part) }
{
    goal.checked_mul(6)
        .ok_or(NoMemory)?
        .checked_add(part)
        .ok_or(NoMemory)
}

/// Where the goal of this number begins.
pub fn head_at(goal: u32) -> Result<u32, NoMemory>
    ensures { IfOk result (λ at. at ≡ tables.head_at goal) }
{
    address(goal, 6)
}

/// Its second instruction.
pub fn second_at(goal: u32) -> Result<u32, NoMemory>
    ensures { IfOk result (λ at. at ≡ tables.second_at goal) }
{
    address(goal, 7)
}

/// Its third instruction.
pub fn third_at(goal: u32) -> Result<u32, NoMemory>
    ensures { IfOk result (λ at. at ≡ tables.third_at goal) }
{
    address(goal, 8)
}

/// Where it goes at its end.
pub fn end_at(goal: u32) -> Result<u32, NoMemory>
    ensures { IfOk result (λ at. at ≡ tables.end_at goal) }
{
    address(goal, 9)
}

/// Where it goes after that.
pub fn ended_at(goal: u32) -> Result<u32, NoMemory>
    ensures { IfOk result (λ at. at ≡ tables.ended_at goal) }
{
    address(goal, 10)
}

/// Where it is tried as an arm of a disjunction.
pub fn try_at(goal: u32) -> Result<u32, NoMemory>
    ensures { IfOk result (λ at. at ≡ tables.try_at goal) }
{
    address(goal, 11)
}

/// Where a body of this number begins, by whether it may have more answers and whether it may leave a choice.
pub fn entry_by(is_many: bool, leaves: bool, body: u32) -> Result<u32, NoMemory>
    ensures { IfOk result (λ at. at ≡ tables.entry_by is_many leaves body) }
{
    if is_many {
        return head_at(body);
    }
    if leaves { try_at(body) } else { head_at(body) }
}
