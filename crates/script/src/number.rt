// A decimal number in a line.
ghost use Rattle.std.specs.Prelude.{◌≡◌, ◌≤◌, length};
ghost use Rattle.script.specs.Reading.{digit_after, ended_at, number_at};

// A number, and where the line goes on after it: at a space or the line's end.
#[derive(Clone, Copy)]
pub struct Field {
    pub value: u64,
    pub next: usize,
}

// What the digits so far stand for with one more: the largest number is 18446744073709551615.
#[tactic(auto, unfolding(crate::specs::Reading::digit_after))]
fn more_digits(value: u64, byte: u8) -> Option<u64>
    ensures { result ≡ digit_after value byte }
{
    if !byte.is_ascii_digit() {
        return None;
    }
    value.checked_mul(10)?.checked_add((byte - b'0') as u64)
}

// An empty field is no number.
fn ended(from: usize, to: usize, value: u64) -> Option<Field>
    ensures { result ≡ ended_at from to value }
{
    (from < to).then_some(Field { value, next: to })
}

pub fn number_at(line: &[u8], at: usize) -> Option<Field>
    requires { at ≤ length line.now }
    ensures { result ≡ number_at line.now at }
{
    let mut value: u64 = 0;
    for i in at..line.len() {
        let byte = line[i];
        if byte == b' ' {
            return ended(at, i, value);
        }
        value = more_digits(value, byte)?;
    }
    ended(at, line.len(), value)
}
