// An answer put down as numbers, from the front: the refusal's alone, or 0 and the values.
#![tactic(auto)]

ghost use Rattle.std.specs.Prelude.{◌≤◌, [], ◌∷◌, ◌≡◌, pos, ◌+ℤ◌, nat_abs, length};
ghost use Rattle.rules.specs.Lists.{flag, written};

// How far fifths + 8 is from 0: fifths + 8, where they are a key's.
pub fn raised(fifths: i32) -> u64
    ensures { result ≡ nat_abs (fifths +ℤ pos 8) }
{
    let sum = fifths as i64 + 8;
    if sum < 0 {
        return (0 - sum) as u64;
    }
    sum as u64
}

pub fn say_refused(number: u32, said: &mut [u64])
    requires { 8 ≤ length said.old }
    ensures { said.new ≡ written (number ∷ []) said.old }
{
    said[0] = u64::from(number);
}

pub fn say_one(a: u64, said: &mut [u64])
    requires { 8 ≤ length said.old }
    ensures { said.new ≡ written (0 ∷ a ∷ []) said.old }
{
    said[0] = 0;
    said[1] = a;
}

// 1 for yes, 0 for no.
pub fn say_right(right: bool, said: &mut [u64])
    requires { 8 ≤ length said.old }
    ensures { said.new ≡ written (0 ∷ flag right ∷ []) said.old }
{
    say_one(right as u64, said);
}

pub fn say_two(a: u64, b: u64, said: &mut [u64])
    requires { 8 ≤ length said.old }
    ensures { said.new ≡ written (0 ∷ a ∷ b ∷ []) said.old }
{
    said[0] = 0;
    said[1] = a;
    said[2] = b;
}

pub fn say_four(a: u64, b: u64, c: u64, d: u64, said: &mut [u64])
    requires { 8 ≤ length said.old }
    ensures { said.new ≡ written (0 ∷ a ∷ b ∷ c ∷ d ∷ []) said.old }
{
    said[0] = 0;
    said[1] = a;
    said[2] = b;
    said[3] = c;
    said[4] = d;
}

pub fn say_five(a: u64, b: u64, c: u64, d: u64, e: u64, said: &mut [u64])
    requires { 8 ≤ length said.old }
    ensures { said.new ≡ written (0 ∷ a ∷ b ∷ c ∷ d ∷ e ∷ []) said.old }
{
    said[0] = 0;
    said[1] = a;
    said[2] = b;
    said[3] = c;
    said[4] = d;
    said[5] = e;
}
