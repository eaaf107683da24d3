// Numbers in an image, in groups of seven bits: read and written in a slice of bytes.
#![tactic(auto)]

ghost use Rattle.std.specs.Prelude.{true, Some, [], ◌∷◌, ◌≡◌, ℕ, ◌+◌, ◌^◌, ◌≤◌, ◌<◌, length};
ghost use Rattle.groups.specs.Groups.{groups, with_group, found_at, GroupHere, WroteBy};

// What a number begins with: its last group, or one that more follow.
#[derive(Clone, Copy)]
enum Group {
    Last(u32),
    More(u32),
    Missing,
}

// None where no group is left, and none that says that more follow where it has to be the last.
fn group_at(image: &[u8], at: usize, left: u32) -> Group
    ensures { GroupHere left image.now at result }
{
    if left == 0 {
        return Group::Missing;
    }
    if image.len() <= at {
        return Group::Missing;
    }
    let byte = image[at] as u32;
    if byte < 128 {
        return Group::Last(byte);
    }
    if left == 1 {
        Group::Missing
    } else {
        Group::More(byte - 128)
    }
}

fn with_group(group: u32, above: Option<(u32, usize)>) -> Option<(u32, usize)>
    requires { (group < 128) × ((n next : ℕ) → above ≡ Some (n, next) → n < 2 ^ 21) }
    ensures { result ≡ with_group group above }
{
    let (value, next) = above?;
    if value == 0 {
        return None;
    }
    Some((group + 128 * value, next))
}

// A number and the place after it. Each further group is read the same way, one group fewer left.
fn further_at(image: &[u8], at: usize, left: u32) -> Option<(u32, usize)>
    requires { left ≤ 4 }
    ensures { result ≡ found_at left image.now at }
{
    let group = group_at(image, at, left);
    match group {
        Group::Last(value) => Some((value, at + 1)),
        Group::More(value) => with_group(value, further_at(image, at + 1, left - 1)),
        Group::Missing => None,
    }
}

// As `further_at`, and does not call itself: where the count of groups is known, the compiler puts both into their callers, and no call is
// left. With `further_at` alone a function that calls itself is left in the archive.
pub fn number_at(image: &[u8], at: usize, left: u32) -> Option<(u32, usize)>
    requires { left ≤ 4 }
    ensures { result ≡ found_at left image.now at }
{
    let group = group_at(image, at, left);
    match group {
        Group::Last(value) => Some((value, at + 1)),
        Group::More(value) => with_group(value, further_at(image, at + 1, left - 1)),
        Group::Missing => None,
    }
}

// A lent buffer, and the place in it where the next byte goes. `writes` is no field of it, though it goes wherever the writer does: so it
// proved, but a save took 10 to 25 % longer on x86-64 (docs/DECISIONS.md).
#[derive(Drop)]
pub struct Writer<'a> {
    pub out: &'a mut [u8],
    pub at: usize,
}

impl Writer<'_> {
    fn put_byte(&mut self, byte: u8, writes: bool)
        requires { (self.old.at ≤ 2 ^ 32) × (writes ≡ true → self.old.at < length self.old.out.now) }
        ensures { WroteBy writes (byte ∷ []) self.old self.new }
    {
        if writes {
            self.out[self.at] = byte;
        }
        self.at += 1;
    }

    // One walk over what is to be written measures it, without `writes`, and then writes it.
    pub fn put_number(&mut self, n: u32, writes: bool)
        requires { (self.old.at < 2 ^ 32) × (n < 16384) × (writes ≡ true → self.old.at + length (groups n) ≤ length self.old.out.now) }
        ensures { WroteBy writes (groups n) self.old self.new }
    {
        if n < 128 {
            self.put_byte(n as u8, writes);
            return;
        }
        self.put_byte((128 + n % 128) as u8, writes);
        self.put_byte((n / 128) as u8, writes);
    }
}
