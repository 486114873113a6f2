// Bytes, texts and numbers in decimal, put into a page one behind another.
#![tactic(auto)]

ghost use Rattle.std.specs.Prelude.{◌+◌, ◌≤◌, [], ◌∷◌, length};
ghost use Rattle.line_text.specs.Text.{decimal as Text·decimal, Adds};

// One byte more.
pub fn put(out: &mut [u8], at: usize, b: u8) -> usize
    requires { at + 1 ≤ length out.old }
    ensures { Adds 1 (b ∷ []) at out.old result out.new }
{
    out[at] = b;
    at + 1
}

// A text more.
pub fn put_text(out: &mut [u8], at: usize, text: &[u8]) -> usize
    requires { at + length text.now ≤ length out.old }
    ensures { Adds (length text.now) text.now at out.old result out.new }
{
    let end = at + text.len();
    out[at..end].copy_from_slice(text);
    end
}

// A number in decimal.
pub fn put_decimal(out: &mut [u8], at: usize, n: u64) -> usize
    requires { at + 20 ≤ length out.old }
    ensures { Adds 20 (Text·decimal n) at out.old result out.new }
{
    let mut text = [0u8; 20];
    let k = io::decimal(n, &mut text);
    put_text(out, at, &text[..k])
}

// A space, then a number in decimal.
pub fn put_next(out: &mut [u8], at: usize, n: u64) -> usize
    requires { at + 21 ≤ length out.old }
    ensures { Adds 21 (32 ∷ Text·decimal n) at out.old result out.new }
{
    let a = put(out, at, b' ');
    put_decimal(out, a, n)
}
