// Tests joined without branches in the caller: a loop that gathers one stays straight.
#![tactic(auto)]

ghost use Rattle.std.specs.Prelude.{◌≡◌, cond, ◌&&◌, ◌||◌};

pub fn both(a: bool, b: bool) -> bool
    ensures { result ≡ (a && b) }
{
    if a { b } else { false }
}

// At least one of the two.
pub fn any(a: bool, b: bool) -> bool
    ensures { result ≡ (a || b) }
{
    if a { true } else { b }
}

// a where c holds, else b.
pub fn either(c: bool, a: bool, b: bool) -> bool
    ensures { result ≡ cond c a b }
{
    if c { a } else { b }
}
