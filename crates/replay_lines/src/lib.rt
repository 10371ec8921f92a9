// The lines of the program, each put into a lent buffer from a place on, or with `write` false only measured: a buffer
// that is too small is left untouched, so the whole output is measured first, by the code that then writes it.
// Each answers the place after what it put. A line starts at a place of up to 32 bits, so that no sum overflows.
// A flag, since every line takes it from its caller: two sinks under a trait would be chosen by the same flag in each line.
#![tactic(auto)]

ghost use Rattle.std.specs.Prelude.{◌≡◌, [], ◌∷◌, ◌+◌, ◌≤◌, length};
ghost use Rattle.rules.specs.Program.{decimal, spaced, line, answer_line, bad_word, start_word, done_word};
ghost use Rattle.replay_lines.specs.Pieces.{put, Fits, Room, Piece};

use replay_decimals::{width, write_decimal};

// Three parameters travel together, and no struct holds them: each clause would have to name the loan in its field.
fn put_word(out: &mut [u8], at: usize, write: bool, word: &[u8]) -> usize
    requires { Room write at word.now out.old }
    ensures { Piece write at word.now out.old result out.new }
{
    let end = at + word.len();
    if write {
        out[at..end].copy_from_slice(word);
    }
    end
}

fn put_decimal(out: &mut [u8], at: usize, write: bool, n: u64) -> usize
    requires { Room write at (decimal n) out.old }
    ensures { Piece write at (decimal n) out.old result out.new }
{
    if write {
        return write_decimal(out, at, n);
    }
    at + width(n)
}

// A line's numbers, each after a space, and the line feed.
fn put_numbers(out: &mut [u8], at: usize, write: bool, numbers: &[u64]) -> usize
    requires { Room write at (spaced numbers.now) out.old }
    ensures { Piece write at (spaced numbers.now) out.old result out.new }
{
    let mut end = at;
    for &n in numbers {
        end = put_word(out, end, write, b" ");
        end = put_decimal(out, end, write, n);
    }
    put_word(out, end, write, b"\n")
}

// A word, and a line's numbers behind it.
fn put_line(out: &mut [u8], at: usize, write: bool, word: &[u8], numbers: &[u64]) -> usize
    requires room { Fits write at (line word.now numbers.now) out.old × (at ≤ 4294967296) }
    requires short { length (line word.now numbers.now) ≤ 80 }
    ensures next { result ≡ at + length (line word.now numbers.now) }
    ensures bytes { out.new ≡ put write at (line word.now numbers.now) out.old }
    ensures short { result ≤ at + 80 }
{
    let end = put_word(out, at, write, word);
    put_numbers(out, end, write, numbers)
}

// `bad PLACE`
pub fn bad_line(out: &mut [u8], at: usize, write: bool, place: u64) -> usize
    requires { Fits write at (line bad_word (place ∷ [])) out.old × (at ≤ 4294967296) }
    ensures next { result ≡ at + length (line bad_word (place ∷ [])) }
    ensures bytes { out.new ≡ put write at (line bad_word (place ∷ [])) out.old }
    ensures short { result ≤ at + 80 }
{
    put_line(out, at, write, b"bad", &[place])
}

// `start ANSWER LEN`
pub fn start_line(out: &mut [u8], at: usize, write: bool, answer: u64, len: u64) -> usize
    requires { Fits write at (line start_word (answer ∷ len ∷ [])) out.old × (at ≤ 4294967296) }
    ensures next { result ≡ at + length (line start_word (answer ∷ len ∷ [])) }
    ensures bytes { out.new ≡ put write at (line start_word (answer ∷ len ∷ [])) out.old }
    ensures short { result ≤ at + 80 }
{
    put_line(out, at, write, b"start", &[answer, len])
}

// `ANSWER LEN`
pub fn answer_line(out: &mut [u8], at: usize, write: bool, answer: u64, len: u64) -> usize
    requires { Fits write at (answer_line answer len) out.old × (at ≤ 4294967296) }
    ensures next { result ≡ at + length (answer_line answer len) }
    ensures bytes { out.new ≡ put write at (answer_line answer len) out.old }
    ensures short { result ≤ at + 80 }
{
    let end = put_decimal(out, at, write, answer);
    put_numbers(out, end, write, &[len])
}

// `done NEXT IGNORED REFUSED`
pub fn done_line(
    out: &mut [u8],
    at: usize,
    write: bool,
    next: u64,
    ignored: u64,
    refused: u64,
) -> usize
    requires { Fits write at (line done_word (next ∷ ignored ∷ refused ∷ [])) out.old × (at ≤ 4294967296) }
    ensures next { result ≡ at + length (line done_word (next ∷ ignored ∷ refused ∷ [])) }
    ensures bytes { out.new ≡ put write at (line done_word (next ∷ ignored ∷ refused ∷ [])) out.old }
    ensures short { result ≤ at + 80 }
{
    put_line(out, at, write, b"done", &[next, ignored, refused])
}
