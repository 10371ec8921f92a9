// Numbers in decimal, written to a lent buffer.
#![tactic(auto)]

ghost use Rattle.std.specs.Prelude.{◌≡◌, ◌++◌, ◌+◌, ◌≤◌, length, take, drop};
ghost use Rattle.rules.specs.Program.{decimal};

use itoa::write_digits;

// How many digits a number has.
pub fn width(n: u64) -> usize
    ensures { (result ≡ length (decimal n)) × (result ≤ 20) }
{
    // Many numbers of the output have one digit, and the logarithm takes longer.
    if n < 10 {
        return 1;
    }
    n.checked_ilog10().unwrap_or(0) as usize + 1
}

// Writes a number from the place `at` on, and answers the place after it. The rest of the buffer stays.
// Digits come last first, so the width is counted before.
pub fn write_decimal(out: &mut [u8], at: usize, n: u64) -> usize
    requires { at + length (decimal n) ≤ length out.old }
    ensures next { result ≡ at + length (decimal n) }
    ensures bytes { out.new ≡ take at out.old ++ (decimal n ++ drop result out.old) }
{
    let end = at + width(n);
    write_digits(n, out, end);
    end
}
